//! What `clap` makes of the words.

ghost use Rattle.std.specs.Prelude.{◌≡◌, IfOk, IfErr, IsErrOf, MatchOption, All, [], map};
ghost use Rattle.clap.specs.Words.{fault_of, found_of, kind_of, matches_of, rows_of};
ghost use Rattle.clap.specs.declared.error.kind.ErrorKind.{ErrorKind};
ghost use Rattle.filter_plan.specs.Words.{IsText, autfilt};

use crate::UsageFault;
use crate::command::command;
use aut_base::Text;
use clap::error::ErrorKind;
use clap::{ArgMatches, Error};
use std::alloc::Global;

/// The words as text, or `Usage` exactly where one of them isn't UTF-8.
pub(crate) fn decoded<'w>(alloc: Global, words: &'w [Text]) -> Result<Vec<&'w str>, UsageFault>
    ensures texts { IfOk result (λ texts. map (λ t. t.now) texts.items ≡ words.now) }
    ensures utf8 { IfOk result (λ _. All IsText words.now) }
    ensures usage { IsErrOf result UsageFault.Usage → All IsText words.now → ⊥ }
{
    let mut texts = Vec::new(alloc);
    'words: for word in words {
        let Some(text) = word_text(word) else {
            return Err(UsageFault::Usage);
        };
        if texts.push(text).is_err() {
            return Err(UsageFault::Memory);
        }
    }
    Ok(texts)
}

/// The word as text, or `None` exactly where it isn't UTF-8.
#[tactic(auto, unfolding(crate::specs::Words::IsText))]
fn word_text(word: &Text) -> Option<&str>
    ensures { MatchOption result (IsText word.now → ⊥) (λ text. (text.now ≡ word.now) × IsText word.now) }
{
    std::str::from_utf8(word.as_bytes()).ok()
}

/// What `clap` finds in the words, or `Usage` only where it refuses them.
#[tactic(auto, using(crate::proofs::Simple::is_simple_autfilt, crate::proofs::Simple::is_free_autfilt))]
pub(crate) fn parsed<'a>(alloc: Global, words: &'a [&'a str]) -> Result<ArgMatches<'a>, UsageFault>
    ensures taken { IfOk result (λ m. fault_of autfilt (map (λ w. w.now) words.entry.now) ≡ []) }
    ensures rows { IfOk result (λ m. rows_of (found_of m) ≡ matches_of autfilt (map (λ w. w.now) words.entry.now)) }
    ensures refused { IsErrOf result UsageFault.Usage → fault_of autfilt (map (λ w. w.now) words.entry.now) ≡ [] → ⊥ }
{
    match command(alloc)?.try_get_matches_from(words) {
        Ok(matches) => Ok(matches),
        Err(error) => Err(cause(error)),
    }
}

/// An error of `clap` as a fault: `Memory` where `clap` ran out of memory, else `Usage`.
fn cause(error: Error) -> UsageFault
    ensures usage { result ≡ UsageFault.Usage → kind_of error ≡ ErrorKind.OutOfMemory → ⊥ }
    ensures memory { result ≡ UsageFault.Memory → kind_of error ≡ ErrorKind.OutOfMemory }
{
    match error.kind() {
        ErrorKind::OutOfMemory => UsageFault::Memory,
        _ => UsageFault::Usage,
    }
}
