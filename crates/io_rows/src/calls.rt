//! Calls on a file whose reads and writes are interrupted and short, and on files that no memory is found to open.

ghost use Rattle.std.specs.Prelude.{ℕ, List};

use crate::no_memory::NoMemory;
use crate::pattern::{NAME, count_pattern, pattern, write_pattern};
use crate::unsteady::Unsteady;
use aut_base::{Failed, Memory, OpenFail, Text};
use aut_io::Inputs;
use real_io::RealInputs;
use row_files::{Answer, Answers, Fault, kind_and_rest, number};
use std::alloc::Global;
use std::fs;
use std::fs::File;

/// The file that is written.
const UNSTEADY_NAME: &str = "unsteady.bytes";

/// The calls, by their names in rows.
#[derive(Clone, Copy)]
pub(crate) struct Calls;

impl Answers for Calls {
    fn add_answer(
        &self,
        rt: &HostRuntime,
        answer: &mut Answer,
        call: &str,
        lines: &str,
    ) -> Result<(), Fault> {
        add_answer(rt, answer, call, lines.trim_end())
    }
}

fn add_answer(rt: &HostRuntime, answer: &mut Answer, call: &str, line: &str) -> Result<(), Fault> {
    match call {
        "file" => add_found(rt, answer, line),
        "write" => add_written(rt, answer, line),
        "read" => add_read(rt, answer, line),
        "open without memory" => add_opened(rt.alloc(), answer, line),
        _ => Err(Fault::UnknownKind),
    }
}

/// How many bytes of a file are those of the pattern, and whether others follow.
fn add_found(rt: &HostRuntime, answer: &mut Answer, name: &str) -> Result<(), Fault> {
    add_bytes(answer, &fs::read(rt, name)?);
    Ok(())
}

fn add_bytes(answer: &mut Answer, bytes: &[u8]) {
    let count = count_pattern(bytes);
    add_size(answer, count);
    if bytes.len() != count as usize {
        answer.add(b", others");
    }
}

fn add_size(answer: &mut Answer, count: u32) {
    answer.add_number(u64::from(count));
    answer.add(b" bytes");
}

/// From `SIGNALS GOOD`: what a file contains after it was written by unsteady calls, and whether a write failed.
fn add_written(rt: &HostRuntime, answer: &mut Answer, line: &str) -> Result<(), Fault> {
    let (signals, good) = signals_and_good(line)?;
    let file = Unsteady::new(File::create(rt, UNSTEADY_NAME)?, signals, good);
    let has_failed = write_pattern(rt.alloc(), file).is_err();
    add_found(rt, answer, UNSTEADY_NAME)?;
    fs::remove_file(rt, UNSTEADY_NAME)?;
    if has_failed {
        answer.add(b", failed");
    }
    Ok(())
}

fn signals_and_good(line: &str) -> Result<(u32, u32), Fault> {
    let (signals, good) = kind_and_rest(line);
    Ok((number(signals)?, number(good)?))
}

/// From `SIGNALS GOOD`: how many bytes of the file are read by unsteady calls, and what the two calls after them answer.
fn add_read(rt: &HostRuntime, answer: &mut Answer, line: &str) -> Result<(), Fault> {
    let (signals, good) = signals_and_good(line)?;
    let file = Unsteady::new(File::open(rt, NAME)?, signals, good);
    let mut inputs = RealInputs::new(rt.alloc(), file, NoMemory::new())?;
    add_taken(rt.alloc(), answer, &mut inputs)
}

/// How many bytes of standard input are read, and what the two calls after them answer.
fn add_taken<I: Inputs>(alloc: Global, answer: &mut Answer, inputs: &mut I) -> Result<(), Fault>
    requires { (name : List ℕ) → I.may_open name }
{
    if open(alloc, inputs, b"-")?.is_err() {
        return Err(Fault::Failed);
    }
    let mut count = 0u32;
    let mut last = inputs.next();
    for _ in 0..u32::MAX {
        if !matches!(&last, Ok(Some(byte)) if *byte == pattern(count)) {
            break;
        }
        count = count.saturating_add(1);
        last = inputs.next();
    }
    add_size(answer, count);
    answer.add(told(&last));
    answer.add(told(&inputs.next()));
    Ok(())
}

/// Opens a name.
fn open<I: Inputs>(
    alloc: Global,
    inputs: &mut I,
    name: &[u8],
) -> Result<Result<(), OpenFail>, Memory>
    requires { (name : List ℕ) → I.may_open name }
{
    let name = Text::from_bytes(alloc, name)?;
    Ok(inputs.open(&name))
}

/// The answer of a call, in words.
fn told(answer: &Result<Option<u8>, Failed>) -> &'static [u8] {
    match answer {
        Ok(Some(_)) => b", another byte",
        Ok(None) => b", end",
        Err(_) => b", failed",
    }
}

/// The answer where no memory is found to open a file, and that of a read after it.
fn add_opened(alloc: Global, answer: &mut Answer, name: &str) -> Result<(), Fault> {
    let mut inputs = RealInputs::new(alloc, b"".as_slice(), NoMemory::new())?;
    let opened: &[u8] = match open(alloc, &mut inputs, name.as_bytes())? {
        Ok(()) => b"opened",
        Err(OpenFail::Failed) => b"failed",
        Err(OpenFail::Memory) => b"memory",
    };
    answer.add(opened);
    answer.add(told(&inputs.next()));
    Ok(())
}
