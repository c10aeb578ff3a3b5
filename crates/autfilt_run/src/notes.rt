//! The lines about faults and about automata that are skipped. They are written in pieces and need no memory.

ghost use Rattle.std.specs.Prelude.{◌≡◌, ℕ, List, ◌++◌, codes};
ghost use Rattle.std.specs.Fmt.{decimal};
ghost use Rattle.aut_io.specs.Seen.{SinkSeen, WritesPiece};
ghost use Rattle.autfilt_run.specs.Noted.{HasNoted, Notes};
ghost use Rattle.autfilt_run.specs.Notes.{aborted_line, limit_word, line_about, line_of, line_of_fault, rule_word};
ghost use Rattle.autfilt_run.specs.inner.Running.{turn_line};

use crate::ended::End;
use crate::{RunFault, Turn, write_number};
use aut_base::{Failed, Limit};
use aut_io::Sink;
use hoa_reader::Rule;

/// Writes the line about an end, if it has one; `name` is that of the text that it is about. Nothing is written after a write
/// that failed, and only the sink's count shows it.
pub fn note<M: Sink>(notes: &mut M, name: &[u8], end: &End)
    ensures { Notes (line_of end.now name.now) (M.seen notes.old) (M.seen notes.new) }
{
    match write_line(notes, name, end) {
        Ok(()) => {}
        Err(Failed) => {}
    }
}

/// Notes that an automaton of the text of this name is skipped, unless a note before failed. Answers whether no note has
/// failed yet.
pub(crate) fn note_skipped<M: Sink>(notes: &mut M, noting: bool, name: &[u8]) -> bool
    ensures { (first : SinkSeen) → (text : List ℕ) → HasNoted text noting first (M.seen notes.old) → HasNoted (text ++ aborted_line name.now) result first (M.seen notes.new) }
{
    if !noting {
        return false;
    }
    match write_pieces(notes, b"autfilt: ", name, b": automaton aborted\n") {
        Ok(()) => true,
        Err(Failed) => false,
    }
}

/// The same of a step, if it skipped an automaton. Of another step nothing is noted.
pub(crate) fn note_turn<M: Sink>(notes: &mut M, noting: bool, turn: Turn, name: &[u8]) -> bool
    ensures { (first : SinkSeen) → (text : List ℕ) → HasNoted text noting first (M.seen notes.old) → HasNoted (text ++ turn_line turn name.now) result first (M.seen notes.new) }
{
    match turn {
        Turn::Skipped => note_skipped(notes, noting, name),
        Turn::Opened | Turn::Kept | Turn::Dropped | Turn::StreamEnd | Turn::Done => noting,
    }
}

/// Notes how the run ended, unless a note before failed, and returns the end.
pub(crate) fn note_end<M: Sink>(notes: &mut M, noting: bool, name: &[u8], end: End) -> End
    ensures same { result ≡ end }
    ensures noted { (first : SinkSeen) → (text : List ℕ) → HasNoted text noting first (M.seen notes.old) → Notes (text ++ line_of end name.now) first (M.seen notes.new) }
{
    if noting {
        note(notes, name, &end);
    }
    end
}

/// Writes the line, and answers whether all of it was written.
fn write_line<M: Sink>(notes: &mut M, name: &[u8], end: &End) -> Result<(), Failed>
    ensures { WritesPiece (M.seen notes.old) (line_of end.now name.now) result (M.seen notes.new) }
{
    match end {
        End::Output | End::NoneOutput | End::Aborts => Ok(()),
        End::Usage => notes.write(b"autfilt: bad arguments\n"),
        End::Fault(fault) => write_fault(notes, name, fault),
    }
}

/// Writes the line about a fault.
fn write_fault<M: Sink>(notes: &mut M, name: &[u8], fault: &RunFault) -> Result<(), Failed>
    ensures { WritesPiece (M.seen notes.old) (line_of_fault fault.now name.now) result (M.seen notes.new) }
{
    match fault {
        RunFault::CannotOpen => write_pieces(notes, b"autfilt: cannot open ", name, b"\n"),
        RunFault::WriteFault => notes.write(b"autfilt: write error\n"),
        RunFault::Memory => notes.write(b"autfilt: out of memory\n"),
        RunFault::ReadFault => write_pieces(notes, b"autfilt: ", name, b": read error\n"),
        RunFault::Truncated => {
            write_pieces(notes, b"autfilt: ", name, b": unexpected end of input\n")
        }
        RunFault::SyntaxAt(offset) => write_offset(notes, name, *offset),
        RunFault::Invalid(rule) => write_rule(notes, name, rule),
        RunFault::Limit(which) => write_limit(notes, name, which),
    }
}

/// Writes three pieces one after the other.
fn write_pieces<M: Sink>(
    notes: &mut M,
    front: &[u8],
    word: &[u8],
    back: &[u8],
) -> Result<(), Failed>
    ensures { WritesPiece (M.seen notes.old) (front.now ++ (word.now ++ back.now)) result (M.seen notes.new) }
{
    notes.write(front)?;
    notes.write(word)?;
    notes.write(back)
}

/// Writes the line about a syntax error at this offset.
fn write_offset<M: Sink>(notes: &mut M, name: &[u8], offset: u64) -> Result<(), Failed>
    ensures { WritesPiece (M.seen notes.old) (line_about name.now (codes "syntax error at byte " ++ decimal offset)) result (M.seen notes.new) }
{
    write_pieces(notes, b"autfilt: ", name, b": syntax error at byte ")?;
    write_number(notes, offset)?;
    notes.write(b"\n")
}

/// Writes the line about a rule that is broken.
fn write_rule<M: Sink>(notes: &mut M, name: &[u8], rule: &Rule) -> Result<(), Failed>
    ensures { WritesPiece (M.seen notes.old) (line_about name.now (codes "invalid automaton (" ++ (rule_word rule.now ++ codes ")"))) result (M.seen notes.new) }
{
    write_pieces(notes, b"autfilt: ", name, b": invalid automaton (")?;
    notes.write(rule_word(rule))?;
    notes.write(b")\n")
}

/// Writes the line about a limit that is passed.
fn write_limit<M: Sink>(notes: &mut M, name: &[u8], which: &Limit) -> Result<(), Failed>
    ensures { WritesPiece (M.seen notes.old) (line_about name.now (codes "limit exceeded: " ++ limit_word which.now)) result (M.seen notes.new) }
{
    write_pieces(notes, b"autfilt: ", name, b": limit exceeded: ")?;
    notes.write(limit_word(which))?;
    notes.write(b"\n")
}

/// The name of a limit.
fn limit_word(which: &Limit) -> &'static [u8]
    ensures { result.now ≡ limit_word which.now }
{
    match which {
        Limit::Names => b"names",
        Limit::Sets => b"sets",
        Limit::States => b"states",
        Limit::Edges => b"edges",
        Limit::Aliases => b"aliases",
        Limit::Depth => b"depth",
        Limit::Bytes => b"bytes",
        Limit::Terms => b"terms",
        Limit::BuchiStates => b"buchi-states",
        Limit::Trees => b"trees",
        Limit::Nodes => b"nodes",
        Limit::Classes => b"classes",
        Limit::Subsets => b"subsets",
        Limit::Pairs => b"pairs",
    }
}

/// The name of a rule.
fn rule_word(rule: &Rule) -> &'static [u8]
    ensures { result.now ≡ rule_word rule.now }
{
    match rule {
        Rule::V1 => b"V1",
        Rule::V2 => b"V2",
        Rule::V3 => b"V3",
        Rule::V4 => b"V4",
        Rule::V5 => b"V5",
        Rule::V6 => b"V6",
        Rule::V7 => b"V7",
        Rule::V8 => b"V8",
        Rule::V9 => b"V9",
        Rule::V10 => b"V10",
        Rule::V11 => b"V11",
        Rule::V12 => b"V12",
    }
}
