// A viewer of a board and its writer, which take turns.
ghost use Rattle.std.specs.Prelude.{◌≡◌, ◌∷◌, [], IfOk, IfSome};
ghost use Rattle.guide_board.specs.Posts.{IsInOrder, services_of, services_in};
ghost use Rattle.board_rows.specs.Stages.{IsWriterOf, IsToldOf};

use crate::guides::{guide, moment_of, put_answer};
use guide_board::{BoardWriter, Told, Viewer, board};
use page_share::PageGuide;
use row_lines::{MOST, Row};
use std::alloc::{AllocError, Global};
use std::sync::Wait;

/// A board of one viewer with this opening post.
pub fn board_of<W: Wait>(
    rt: &W,
    alloc: Global,
    number: u64,
    opening: &PageGuide,
) -> Result<Option<(BoardWriter, Viewer)>, AllocError>
    requires order { IsInOrder opening.now.guide }
    requires services { services_of opening.now.guide ≡ 101 ∷ 103 ∷ [] }
    ensures { IfOk result (λ made. IfSome made (λ pair. IsWriterOf pair.1 pair.0)) }
{
    let (writer, viewers) = board(rt, alloc, number, opening, 1)?;
    let mut viewers = viewers.into_vec();
    match viewers.pop() {
        Some(viewer) => Ok(Some((writer, viewer))),
        None => {
            writer.close(rt);
            Ok(None)
        }
    }
}

// The number and the guide of a post, which is written `NUMBER@TIME`.
fn posting(row: &mut Row, word: &str) -> Result<Option<(u64, PageGuide)>, AllocError>
    ensures order { IfOk result (λ made. IfSome made (λ posting. IsInOrder posting.1.guide)) }
    ensures services { IfOk result (λ made. IfSome made (λ posting. services_of posting.1.guide ≡ 101 ∷ 103 ∷ [])) }
{
    let Some((number, time)) = word.split_once('@') else {
        return Ok(None);
    };
    let Ok(number) = number.parse::<u64>() else {
        return Ok(None);
    };
    let moment = moment_of(row, time);
    Ok(Some((number, guide(row.alloc(), moment)?)))
}

// Posts what a word says.
fn post<W: Wait>(
    rt: &W,
    row: &mut Row,
    word: &str,
    writer: &mut BoardWriter,
) -> Result<(), AllocError>
    requires { services_in writer.old.posts ≡ 101 ∷ 103 ∷ [] }
    ensures board { writer.new.board ≡ writer.old.board }
    ensures services { services_in writer.new.posts ≡ services_in writer.old.posts }
{
    if let Some((number, guide)) = posting(row, word)? {
        return writer.post(rt, number, &guide);
    }
    row.refuse();
    Ok(())
}

// Asks the viewer for a service, or has it learn what was told last.
fn view(row: &mut Row, word: &str, viewer: &mut Viewer, told: &mut Option<Told>)
    requires { IsToldOf viewer.old told.old }
    ensures board { viewer.new.board ≡ viewer.old.board }
    ensures told { IsToldOf viewer.new told.new }
{
    if word == "learn" {
        if let Some(told) = told.take() {
            viewer.learn(told);
        }
        return;
    }
    match word.parse::<u16>() {
        Ok(service) => put_answer(row, viewer.now_next(service)),
        Err(_) => row.refuse(),
    }
}

// One step of the writer or of the viewer.
fn turn<W: Wait>(
    rt: &W,
    row: &mut Row,
    word: &str,
    viewer: &mut Viewer,
    writer: &mut BoardWriter,
    told: &mut Option<Told>,
) -> Result<(), AllocError>
    requires writer { IsWriterOf viewer.old writer.old }
    requires told { IsToldOf viewer.old told.old }
    ensures writer { IsWriterOf viewer.new writer.new }
    ensures told { IsToldOf viewer.new told.new }
{
    if word == "tell" {
        *told = Some(writer.tell()?);
        return Ok(());
    }
    if word.contains('@') {
        return post(rt, row, word, writer);
    }
    view(row, word, viewer, told);
    Ok(())
}

// The steps up to the end of the writer.
fn turns<W: Wait>(
    rt: &W,
    row: &mut Row,
    viewer: &mut Viewer,
    writer: &mut BoardWriter,
    told: &mut Option<Told>,
) -> Result<(), AllocError>
    requires writer { IsWriterOf viewer.old writer.old }
    requires told { IsToldOf viewer.old told.old }
    ensures told { IsToldOf viewer.new told.new }
{
    for _ in 0..MOST {
        let word = row.word();
        if word.is_empty() || word == "close" {
            break;
        }
        turn(rt, row, word, viewer, writer, told)?;
    }
    Ok(())
}

// The steps behind it.
fn views(row: &mut Row, viewer: &mut Viewer, told: &mut Option<Told>)
    requires { IsToldOf viewer.old told.old }
{
    for _ in 0..MOST {
        let word = row.word();
        if word.is_empty() {
            break;
        }
        view(row, word, viewer, told);
    }
}

// The steps of a row.
fn play<W: Wait>(
    rt: &W,
    row: &mut Row,
    mut writer: BoardWriter,
    mut viewer: Viewer,
) -> Result<(), AllocError>
    requires { IsWriterOf viewer writer }
{
    let mut told = None;
    let done = turns(rt, row, &mut viewer, &mut writer, &mut told);
    writer.close(rt);
    views(row, &mut viewer, &mut told);
    done
}

// Opens a board by the first word, and goes through the others.
fn scene<W: Wait>(rt: &W, row: &mut Row) -> Result<(), AllocError> {
    let word = row.word();
    let Some((number, opening)) = posting(row, word)? else {
        row.refuse();
        return Ok(());
    };
    match board_of(rt, row.alloc(), number, &opening)? {
        Some((writer, viewer)) => play(rt, row, writer, viewer),
        None => {
            row.refuse();
            Ok(())
        }
    }
}

/// What the viewer is answered, step by step.
pub fn tell<W: Wait>(rt: &W, row: &mut Row) {
    let done = scene(rt, row);
    row.need(done.is_ok());
}
