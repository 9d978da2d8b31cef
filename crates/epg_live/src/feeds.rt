// The files of the feeds.
ghost use Rattle.std.specs.Prelude.{◌≡◌, ◌≤◌, ◌<◌, IfErr, IfOk, Ok, true, false, length};
ghost use Rattle.si_causes.specs.Causes.{Rose};
ghost use Rattle.si_causes.specs.Opening.{Tries};
ghost use Rattle.command_words.specs.Commands.{texts};
ghost use Rattle.epg_report.specs.Told.{asked};
ghost use Rattle.epg_live.specs.Opened.{Adds, Closes, HasOpened, NotOpened};

use epg_report::Status;
use headend_live::Readers;
use si_causes::{LineReader, Opener};
use std::alloc::{AllocError, Global};

// Opens the file of this path and adds a reader of it, or tells that it was not opened.
fn open_feed<O: Opener>(
    alloc: Global,
    opener: &mut O,
    path: &str,
    feeds: &mut Readers<O::From>,
) -> Result<bool, AllocError>
    ensures opened { result ≡ Ok true
        → Adds O.From.left O.From.faults (O.files opener.old) path.now feeds.old.items feeds.new.items }
    ensures failed { result ≡ Ok false → Rose (O.faults opener.old) (O.faults opener.new) }
    ensures kept { result ≡ Ok false → feeds.new.items ≡ feeds.old.items }
    ensures tried { Tries (O.tried opener.old) (O.tried opener.new) path.now }
    ensures files { O.files opener.new ≡ O.files opener.old }
    ensures later { O.faults opener.old ≤ O.faults opener.new }
    ensures read_faults { O.read_faults opener.new ≡ O.read_faults opener.old }
{
    match opener.open(path) {
        Ok(source) => {
            let lines = LineReader::open(alloc, source)?;
            feeds.push(lines)?;
            Ok(true)
        }
        Err(_) => Ok(false),
    }
}

/// Gives the sources of these readers back.
pub(crate) fn close_feeds<O: Opener>(opener: &mut O, feeds: Readers<O::From>)
    ensures closes { Closes O.From.faults feeds.items (O.read_faults opener.old) (O.read_faults opener.new) }
    ensures faults { O.faults opener.new ≡ O.faults opener.old }
    ensures tried { O.tried opener.new ≡ O.tried opener.old }
    ensures files { O.files opener.new ≡ O.files opener.old }
{
    for lines in feeds {
        opener.close(lines.close());
    }
}

/// Opens the files of these paths in order, up to the first that is not opened; then those before it are closed again.
pub(crate) fn open_feeds<O: Opener>(
    alloc: Global,
    opener: &mut O,
    paths: &[String],
) -> Result<Readers<O::From>, Status>
    requires few { length paths.now ≤ 16 }
    ensures opened { IfOk result (λ feeds. HasOpened O.From.left O.From.faults (texts paths.now)
        (asked O.files O.tried O.faults O.read_faults opener.old opener.new) feeds.items) }
    ensures stopped { IfErr result (λ stop. NotOpened (texts paths.now)
        (asked O.files O.tried O.faults O.read_faults opener.old opener.new) stop) }
    ensures read_faults { O.read_faults opener.new ≡ O.read_faults opener.old }
{
    let mut feeds = Vec::new(alloc);
    let mut feed = 0u8;
    for path in paths {
        feed += 1;
        let Ok(opened) = open_feed(alloc, opener, path.as_str(), &mut feeds) else {
            return Err(Status::Memory);
        };
        if !opened {
            close_feeds(opener, feeds);
            return Err(Status::OpenFault(feed));
        }
    }
    Ok(feeds)
}
