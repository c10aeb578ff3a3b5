//! Scripts of calls on the sources and sinks in memory, by generic callers.

ghost use Rattle.std.specs.Prelude.{◌≡◌, ℕ, List, IfOk, length};

use crate::words::{count, digit, part};
use aut_base::{Memory, Names, Numbers, OpenFail, Text, Words};
use aut_io::{Inputs, MemInputs, MemSink, Sink, SureInputs, SureSink};
use row_files::Answer;
use std::alloc::Global;

/// From `SCRIPT; CALLS`: the answers of a source on which these calls fail.
pub(crate) fn add_source(alloc: Global, answer: &mut Answer, line: &str) -> Result<(), Memory> {
    let failing = digits(alloc, part(line, 1).as_bytes())?;
    let (names, texts) = two_texts(alloc)?;
    let mut inputs = MemInputs::new(names, texts, failing);
    play(alloc, answer, &mut inputs, part(line, 0))
}

/// The answers of a source that never fails.
pub(crate) fn add_sure_source(
    alloc: Global,
    answer: &mut Answer,
    line: &str,
) -> Result<(), Memory> {
    let (names, texts) = two_texts(alloc)?;
    play(alloc, answer, &mut SureInputs::new(names, texts), line)
}

/// From `PIECES; CAPACITY; WRITES`: the answers of a sink of this capacity on which these writes fail, and what it holds
/// then.
pub(crate) fn add_sink(alloc: Global, answer: &mut Answer, line: &str) -> Result<(), Memory> {
    let failing = digits(alloc, part(line, 2).as_bytes())?;
    let mut sink = MemSink::new(alloc, count(part(line, 1)), failing)?;
    write_all(answer, &mut sink, part(line, 0));
    answer.add_text(sink.bytes());
    Ok(())
}

/// The answers of a sink that never fails.
pub(crate) fn add_sure_sink(answer: &mut Answer, line: &str) -> Result<(), Memory> {
    write_all(answer, &mut SureSink::new(), line);
    Ok(())
}

/// The numbers that are the digits among these bytes.
fn digits(alloc: Global, bytes: &[u8]) -> Result<Numbers, Memory> {
    let mut numbers = Numbers::new(alloc);
    for byte in bytes {
        if let Some(number) = digit(*byte) {
            numbers.push(number)?;
        }
    }
    Ok(numbers)
}

/// The text "xy" under the name "a", and "z" under "b".
fn two_texts(alloc: Global) -> Result<(Names, Words), Memory>
    ensures { IfOk result (λ p. length p.1 ≡ length p.0) }
{
    let names = two_names(alloc)?;
    Ok((names, two_words(alloc)?))
}

fn two_names(alloc: Global) -> Result<Names, Memory>
    ensures { IfOk result (λ names. length names ≡ 2) }
{
    let mut names = Names::new(alloc);
    names.push(Text::from_bytes(alloc, b"a")?)?;
    names.push(Text::from_bytes(alloc, b"b")?)?;
    Ok(names)
}

fn two_words(alloc: Global) -> Result<Words, Memory>
    ensures { IfOk result (λ words. length words ≡ 2) }
{
    let mut words = Words::new(alloc);
    words.push(Text::from_bytes(alloc, b"xy")?)?;
    words.push(Text::from_bytes(alloc, b"z")?)?;
    Ok(words)
}

/// Makes the calls of a script and adds their answers: `n` reads, and any other letter opens the text of that name. The
/// answers are `-` for a failed call, `+` for a text that was opened, `.` for the end of the text, and else the byte.
fn play<I: Inputs>(
    alloc: Global,
    answer: &mut Answer,
    inputs: &mut I,
    script: &str,
) -> Result<(), Memory>
    requires { (name : List ℕ) → I.may_open name }
{
    for letter in script.as_bytes() {
        let told = if *letter == b'n' {
            read(inputs)
        } else {
            open(alloc, inputs, *letter)?
        };
        answer.add(&[told]);
    }
    Ok(())
}

fn read<I: Inputs>(inputs: &mut I) -> u8 {
    match inputs.next() {
        Ok(Some(byte)) => byte,
        Ok(None) => b'.',
        Err(_) => b'-',
    }
}

fn open<I: Inputs>(alloc: Global, inputs: &mut I, letter: u8) -> Result<u8, Memory>
    requires { (name : List ℕ) → I.may_open name }
{
    let name = Text::from_bytes(alloc, &[letter])?;
    match inputs.open(&name) {
        Ok(()) => Ok(b'+'),
        Err(OpenFail::Failed) => Ok(b'-'),
        Err(OpenFail::Memory) => Err(Memory),
    }
}

/// Writes the pieces, which are separated by commas. The answers are `+` where all was written, and `-` for a failed write.
fn write_all<S: Sink>(answer: &mut Answer, sink: &mut S, pieces: &str) {
    for piece in pieces.split(',') {
        let is_written = sink.write(piece.as_bytes()).is_ok();
        answer.add(if is_written { b"+" } else { b"-" });
    }
}
