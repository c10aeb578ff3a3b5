//! The command over the arguments of a process, with any inputs and sinks.

ghost use Rattle.std.specs.Prelude.{◌≡◌, ℕ, List, [], length, IfErr, IfOk};
ghost use Rattle.std.specs.IoError.{error_kind};
ghost use Rattle.std.specs.Process.{exit_status};
ghost use Rattle.std.specs.Vec.Iter.{into_iter_items, into_iter_len};
ghost use Rattle.autfilt_run.specs.Ends.{ended_of};
ghost use Rattle.autfilt_run.specs.Noted.{Notes};
ghost use Rattle.autfilt_run.specs.Notes.{line_of};
ghost use Rattle.autfilt_run.specs.Status.{status_of};
ghost use Rattle.autfilt_run.specs.Answers.{EndsProgram, RefusesRun};
ghost use Rattle.autfilt_run.specs.Words.{end_without, words_in};

use super::call::words_of;
use crate::{End, Ended, autfilt, note};
use aut_io::{Inputs, Sink};
use std::alloc::Global;
use std::env::Args;
use std::io;
use std::process::ExitCode;

/// Does what the arguments of a process ask for, of which the first is the program's name, and answers the exit status. Where
/// the arguments can't be had, no run begins, and a line says so. std doesn't say of a list that is passed in that its length
/// is the number of its items, so the clause `ran` assumes it.
pub fn answer<I: Inputs, W: Sink, M: Sink>(
    alloc: Global,
    args: io::Result<Args<Global>>,
    inputs: &mut I,
    out: &mut W,
    notes: &mut M,
) -> ExitCode
    requires { (name : List ℕ) → I.may_open name }

    // The run of the words after the first argument, byte for byte, or want of memory before it began.
    ensures ran { IfOk args (λ list. into_iter_len list ≡ length (into_iter_items list)
        → EndsProgram (words_in (into_iter_items list)) result (I.seen inputs.old) (I.seen inputs.new) (W.seen out.old) (W.seen out.new) (M.seen notes.old) (M.seen notes.new)) }

    // No run begins where the arguments can't be had.
    ensures none { IfErr args (λ error. RefusesRun (end_without (error_kind error)) result (I.seen inputs.old) (I.seen inputs.new)
        (W.seen out.old) (W.seen out.new) (M.seen notes.old) (M.seen notes.new)) }
{
    match words_of(alloc, args) {
        Ok(words) => exit_code(&autfilt(alloc, &words, inputs, out, notes)),
        Err(end) => refuse(notes, end),
    }
}

/// Notes why no run began, and answers the exit status.
pub fn refuse<M: Sink>(notes: &mut M, end: End) -> ExitCode
    ensures status { exit_status result ≡ status_of (ended_of end) }
    ensures noted { Notes (line_of end []) (M.seen notes.old) (M.seen notes.new) }
{
    note(notes, b"", &end);
    exit_code(&Ended::from(end))
}

/// The exit status of an end, as std's `ExitCode`.
pub fn exit_code(ended: &Ended) -> ExitCode
    ensures { exit_status result ≡ status_of ended.now }
{
    ExitCode::from(ended.status())
}
