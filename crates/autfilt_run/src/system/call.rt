//! The words of the command line, from the arguments of the process.

ghost use Rattle.std.specs.Prelude.{◌≡◌, length, map, Err, IfErr, IfOk};
ghost use Rattle.std.specs.IoError.{error_kind};
ghost use Rattle.std.specs.Vec.Iter.{into_iter_items, into_iter_len};
ghost use Rattle.autfilt_run.specs.declared.ended.End.{End};
ghost use Rattle.autfilt_run.specs.declared.fault.RunFault.{RunFault};
ghost use Rattle.autfilt_run.specs.Words.{end_without, words_in};

use crate::End;
use aut_base::{Memory, Text, Words};
use std::alloc::Global;
use std::env::Args;
use std::io::{self, ErrorKind};

/// The words after the program's name, byte for byte.
pub(crate) fn words_of(alloc: Global, args: io::Result<Args<Global>>) -> Result<Words, End>
    ensures words { IfOk args (λ list. into_iter_len list ≡ length (into_iter_items list) → IfOk result (λ words. words ≡ words_in (into_iter_items list))) }
    ensures only { IfOk args (λ list. IfErr result (λ end. end ≡ End.Fault RunFault.Memory)) }
    ensures none { IfErr args (λ error. result ≡ Err (end_without (error_kind error))) }
{
    match args {
        Ok(args) => Ok(words_from(alloc, args)?),
        Err(error) => Err(end_without(error.kind())),
    }
}

/// How a run ends where the arguments can't be had.
fn end_without(kind: ErrorKind) -> End
    ensures { result ≡ end_without kind }
{
    match kind {
        ErrorKind::OutOfMemory => End::from(Memory),
        _ => End::Usage,
    }
}

/// The words after the first of these arguments. std doesn't say of a list that is passed in that its length is the number of
/// its items, so the clause assumes it.
fn words_from(alloc: Global, args: Args<Global>) -> Result<Words, Memory>
    ensures { into_iter_len args ≡ length (into_iter_items args) → IfOk result (λ words. words ≡ words_in (into_iter_items args)) }
{
    let args: Vec<String> = args.collect(alloc)?;
    words_behind(alloc, &args)
}

/// The words after the program's name, which is the first argument.
fn words_behind(alloc: Global, args: &[String]) -> Result<Words, Memory>
    ensures { IfOk result (λ words. words ≡ words_in args.now) }
{
    match args.split_first() {
        Some((_, words)) => texts_of(alloc, words),
        None => Ok(Words::new(alloc)),
    }
}

/// The words, copied into texts.
fn texts_of(alloc: Global, words: &[String]) -> Result<Words, Memory>
    ensures { IfOk result (λ texts. texts ≡ map (λ s. s.bytes.items) words.now) }
{
    let mut texts = Words::new(alloc);
    'words: for word in words {
        texts.push(Text::from_bytes(alloc, word.as_bytes())?)?;
    }
    Ok(texts)
}
