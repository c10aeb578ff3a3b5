//! Which calls of a run fail.

use aut_base::{Memory, Numbers};
use aut_io::MemSink;
use row_files::{Fault, copied, number, numbers};
use std::alloc::Global;

/// The capacity of sinks in bytes, where a row doesn't say it.
const CAPACITY: u32 = 100_000;

/// The numbers of the calls that fail, and the capacity of the output.
#[derive(Drop)]
pub(crate) struct Failing {
    calls: Numbers,
    writes: Numbers,
    notes: Numbers,
    capacity: u32,
}

impl Failing {
    /// No call fails.
    pub(crate) fn new(alloc: Global) -> Failing {
        Failing {
            calls: Numbers::new(alloc),
            writes: Numbers::new(alloc),
            notes: Numbers::new(alloc),
            capacity: CAPACITY,
        }
    }

    /// Takes a line of this kind.
    pub(crate) fn set(&mut self, alloc: Global, kind: &str, rest: &str) -> Result<(), Fault> {
        match kind {
            "failing-calls" => self.calls = numbers(alloc, rest)?,
            "failing-writes" => self.writes = numbers(alloc, rest)?,
            "failing-notes" => self.notes = numbers(alloc, rest)?,
            "capacity" => self.capacity = number(rest)?,
            _ => return Err(Fault::UnknownKind),
        }
        Ok(())
    }

    /// Whether no write of a note fails.
    pub(crate) fn notes_freely(&self) -> bool {
        self.notes.is_empty()
    }

    /// Which calls of the inputs fail, with another one.
    pub(crate) fn calls(&self, alloc: Global, other: Option<u32>) -> Result<Numbers, Memory> {
        let mut calls = copied(alloc, &self.calls)?;
        if let Some(other) = other {
            calls.push(other)?;
        }
        Ok(calls)
    }

    /// The sink of the output.
    pub(crate) fn output(&self, alloc: Global) -> Result<MemSink, Memory> {
        MemSink::new(alloc, self.capacity, copied(alloc, &self.writes)?)
    }

    /// The sink of notes. With `is_mute` its first write fails.
    pub(crate) fn notes(&self, alloc: Global, is_mute: bool) -> Result<MemSink, Memory> {
        let mut failing = copied(alloc, &self.notes)?;
        if is_mute {
            failing.push(0)?;
        }
        MemSink::new(alloc, CAPACITY, failing)
    }
}
