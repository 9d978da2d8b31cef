// The options of `listen`.
ghost use Rattle.std.specs.Prelude.{◌≡◌, option_map};
ghost use Rattle.command_words.specs.Commands.{said_listen, texts};
ghost use Rattle.command_words.specs.Grammar.{listen_of};

use crate::front::times;

/// How `listen` hears a recording: whether its guide has also the descriptors that no other line shows whole, whether it shows also what it
/// holds of tables that are not whole, whether it seeks the sync byte again where a recording is damaged, and whether it notices losses.
#[derive(Clone, Copy, PartialEq, Eq)]
pub struct ListenWords {
    pub details: bool,
    pub partial: bool,
    pub resync: bool,
    pub strict: bool,
}

/// The options that these words of `listen` spell: each at most once, in any order.
pub(crate) fn listen_words(words: &[String]) -> Option<ListenWords>
    ensures { option_map said_listen result ≡ listen_of (texts words.now) }
{
    let details = times(words, "--details");
    let partial = times(words, "--partial");
    let resync = times(words, "--resync");
    let strict = times(words, "--strict");
    if details > 1 || partial > 1 || resync > 1 || strict > 1 {
        return None;
    }
    if details + partial + resync + strict != words.len() {
        return None;
    }
    Some(ListenWords {
        details: details == 1,
        partial: partial == 1,
        resync: resync == 1,
        strict: strict == 1,
    })
}
