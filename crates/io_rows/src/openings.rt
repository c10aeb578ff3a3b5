//! Names that are opened one after the other, and the outcomes that are stated.

ghost use Rattle.std.specs.Prelude.{ℕ, List};

use crate::pattern::{SIZE, pattern};
use aut_base::{Memory, OpenFail, Text};
use aut_io::Inputs;
use real_io::{RealInputs, SystemFiles};
use row_files::{Fault, Row, add_escaped, kind_and_rest, number, range};
use std::alloc::Global;
use std::fs::File;

/// What comes of opening and reading a name.
#[derive(Clone, Copy)]
enum Outcome {
    /// It can't be opened, and then nothing is read.
    Refused,
    /// It is opened, and the first read fails.
    Unreadable,
    /// The bytes of the pattern from one index to another, and no more is read.
    Part(u32, u32),
    /// The bytes of the pattern from this index to its last, and then the end, twice.
    Rest(u32),
    /// A byte that is not the pattern's first.
    Other,
}

/// A name and its stated outcome, and the inputs, which each row leaves to the next as they are.
#[derive(Drop)]
pub(crate) struct Openings<'a> {
    inputs: RealInputs<File, SystemFiles<&'a HostRuntime>>,
    /// The lines of the row, as they were read.
    lines: String,
    name: Text,
    is_met: bool,
}

impl<'a> Openings<'a> {
    /// No row was read yet.
    pub(crate) fn new(rt: &'a HostRuntime, standard: File) -> Result<Openings<'a>, Memory> {
        Ok(Openings {
            inputs: RealInputs::new(rt.alloc(), standard, SystemFiles::new(rt))?,
            lines: String::new(rt.alloc()),
            name: Text::new(rt.alloc()),
            is_met: false,
        })
    }
}

impl<'a> Row for Openings<'a> {
    fn add(&mut self, rt: &HostRuntime, line: &str) -> Result<bool, Fault> {
        let (kind, rest) = kind_and_rest(line);
        self.lines.push_str(line)?;
        self.lines.push('\n')?;
        match kind {
            "open" => {
                add_escaped(rt.alloc(), &mut self.name, rest, 0)?;
                Ok(false)
            }
            ">" => {
                self.is_met = is_met(&mut self.inputs, &self.name, stated(rest)?);
                Ok(true)
            }
            _ => Err(Fault::UnknownKind),
        }
    }

    fn is_whole(&self) -> Result<bool, Fault> {
        if self.lines.as_str().is_empty() {
            return Ok(false);
        }
        Err(Fault::Missing)
    }

    fn different(&self, rt: &HostRuntime) -> Result<Option<String>, Fault> {
        if self.is_met {
            return Ok(None);
        }
        let lines = self.lines.as_str();
        Ok(Some(format!(in rt.alloc(); "{lines}# something else")?))
    }

    fn clear(&mut self, alloc: Global) {
        self.lines = String::new(alloc);
        self.name = Text::new(alloc);
    }
}

/// The outcome that a line states.
fn stated(words: &str) -> Result<Outcome, Fault> {
    let (kind, rest) = kind_and_rest(words);
    match kind {
        "refused" => Ok(Outcome::Refused),
        "unreadable" => Ok(Outcome::Unreadable),
        "part" => {
            let (from, to) = range(rest)?;
            Ok(Outcome::Part(from, to))
        }
        "rest" => Ok(Outcome::Rest(number(rest)?)),
        "other" => Ok(Outcome::Other),
        _ => Err(Fault::UnknownKind),
    }
}

/// Whether the opening of a name has this outcome.
fn is_met<I: Inputs>(inputs: &mut I, name: &Text, outcome: Outcome) -> bool
    requires { (name : List ℕ) → I.may_open name }
{
    let opened = inputs.open(name);
    match outcome {
        Outcome::Refused => opened == Err(OpenFail::Failed) && matches!(inputs.next(), Ok(None)),
        Outcome::Unreadable => opened.is_ok() && inputs.next().is_err(),
        Outcome::Part(from, to) => opened.is_ok() && gives(inputs, from, to),
        Outcome::Rest(from) => opened.is_ok() && gives(inputs, from, SIZE) && is_ended(inputs),
        Outcome::Other => opened.is_ok() && !gives(inputs, 0, 1),
    }
}

/// Whether these bytes of the pattern come next.
fn gives<I: Inputs>(inputs: &mut I, from: u32, to: u32) -> bool {
    for place in from..to {
        if !matches!(inputs.next(), Ok(Some(byte)) if byte == pattern(place)) {
            return false;
        }
    }
    true
}

/// Whether the text is at its end, and stays so.
fn is_ended<I: Inputs>(inputs: &mut I) -> bool {
    matches!(inputs.next(), Ok(None)) && matches!(inputs.next(), Ok(None))
}
