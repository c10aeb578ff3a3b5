//! How often a row is run.

use row_files::{Fault, range};

/// What the number of a run means, where a row is run several times.
#[derive(Clone, Copy)]
pub(crate) enum Each {
    Nothing,
    /// Which call of the inputs fails.
    Call,
    /// How long the prefixes of the texts are that are read.
    Front,
}

/// The first and the last number of the runs of a row, and what a number means.
#[derive(Clone, Copy)]
pub(crate) struct Runs {
    each: Each,
    pub(crate) first: u32,
    pub(crate) last: u32,
}

impl Runs {
    /// One run.
    pub(crate) fn single() -> Runs {
        Runs {
            each: Each::Nothing,
            first: 0,
            last: 0,
        }
    }

    /// The runs from the first to the last number of a line.
    pub(crate) fn read(each: Each, line: &str) -> Result<Runs, Fault> {
        let (first, last) = range(line)?;
        Ok(Runs { each, first, last })
    }

    /// The call of the inputs that fails in the run of this number, beside those that fail in each run.
    pub(crate) fn failing_call(self, run: u32) -> Option<u32> {
        match self.each {
            Each::Call => Some(run),
            Each::Nothing | Each::Front => None,
        }
    }

    /// The length of the prefixes in the run of this number.
    pub(crate) fn longest_front(self, run: u32) -> usize {
        match self.each {
            Each::Front => run as usize,
            Each::Nothing | Each::Call => usize::MAX,
        }
    }
}
