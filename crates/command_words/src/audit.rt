// The options of `audit`.
ghost use Rattle.std.specs.Prelude.{◌≡◌, ◌↔◌, Some, None, Err, IfOk};
ghost use Rattle.command_words.specs.Commands.{said_audit, texts};
ghost use Rattle.command_words.specs.Grammar.{audit_of};
ghost use Rattle.command_words.specs.declared.command.WordsStop.TheVariants.{Usage};

use crate::command::WordsStop;
use crate::front::flagged_path;
use std::alloc::Global;

/// The options of `audit`: the path of the recording, and whether null packets may stand in it.
#[derive(Drop)]
pub struct AuditWords {
    pub path: String,
    pub nulls: bool,
}

// What these options of `audit` say.
pub(crate) fn audit_words(alloc: Global, words: &[String]) -> Result<AuditWords, WordsStop>
    ensures said { IfOk result (λ audit. audit_of (texts words.now) ≡ Some (said_audit audit)) }
    ensures usage { result ≡ Err Usage ↔ (audit_of (texts words.now) ≡ None) }
{
    let Some((nulls, path)) = flagged_path(words, "--nulls", "--air") else {
        return Err(WordsStop::Usage);
    };
    match String::from_str(alloc, path) {
        Ok(path) => Ok(AuditWords { path, nulls }),
        Err(_) => Err(WordsStop::Memory),
    }
}
