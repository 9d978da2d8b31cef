// A viewer that reads in a thread of its own while another posts.
ghost use Rattle.std.specs.Prelude.{◌≡◌, ◌∷◌, []};
ghost use Rattle.guide_board.specs.Posts.{IsInOrder, services_of, services_in};
ghost use Rattle.board_rows.specs.Stages.{IsWriterOf};

use crate::guides::{guide, moment_of, put_answer};
use crate::scenes::board_of;
use guide_board::{BoardWriter, Viewer};
use page_share::PageGuide;
use row_lines::{Row, World};
use std::alloc::AllocError;
use std::sync::Wait;
use std::thread::join;

// Posts the guide under the numbers from 1 to the last.
fn post_all<W: Wait>(
    rt: &W,
    writer: &mut BoardWriter,
    guide: &PageGuide,
    last: u64,
) -> Result<(), AllocError>
    requires order { IsInOrder guide.now.guide }
    requires services { services_of guide.now.guide ≡ services_in writer.old.posts }
{
    for number in 1..=last {
        writer.post(rt, number, guide)?;
    }
    Ok(())
}

// Reads so often, and says whether no number is below the one before.
fn never_falls(viewer: &mut Viewer, reads: u64) -> bool {
    let mut newest = 0;
    for _ in 0..reads {
        match viewer.now_next(101) {
            Ok(answer) if newest <= answer.number => newest = answer.number,
            _ => return false,
        }
    }
    true
}

// The posts and the reads, side by side; then the viewer reads once more, and was told nothing.
fn side_by_side<W: World>(
    rt: &W,
    row: &mut Row,
    guide: &PageGuide,
    mut writer: BoardWriter,
    mut viewer: Viewer,
) -> Result<(), AllocError>
    requires order { IsInOrder guide.now.guide }
    requires services { services_of guide.now.guide ≡ services_in writer.posts }
{
    let (posts, reads) = (row.number(), row.number());
    let (posted, rising) = join(
        rt,
        || post_all(rt, &mut writer, guide, posts),
        || never_falls(&mut viewer, reads),
    );
    row.put(if rising { " never falls" } else { " falls" });
    put_answer(row, viewer.now_next(101));
    writer.close(rt);
    posted
}

fn watch<W: World>(rt: &W, row: &mut Row) -> Result<(), AllocError> {
    let moment = moment_of(row, "12:45:00");
    let guide = guide(row.alloc(), moment)?;
    match board_of(rt, row.alloc(), 0, &guide)? {
        Some((writer, viewer)) => side_by_side(rt, row, &guide, writer, viewer),
        None => {
            row.refuse();
            Ok(())
        }
    }
}

/// What a viewer reads while so many posts are made.
pub fn tell<W: World>(rt: &W, row: &mut Row) {
    let done = watch(rt, row);
    row.need(done.is_ok());
}
