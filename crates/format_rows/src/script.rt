//! What the lines of a row say about its call, but for texts.

use crate::call::Call;
use row_files::{Fault, number, range};

/// What the number of a run means, where a row is run several times.
#[derive(Clone, Copy)]
pub(crate) enum Each {
    Nothing,
    /// Which call of the inputs fails.
    Call,
    /// How long the prefix of the text is that is read.
    Front,
    /// How many bytes the lexer may take.
    Most,
}

/// The call, how it is made, and in which runs.
#[derive(Clone, Copy)]
pub(crate) struct Script {
    pub(crate) call: Call,
    /// How many bytes the lexer may take.
    pub(crate) most: u32,
    /// How often the call is made at most.
    pub(crate) times: Option<u32>,
    /// After how many answers a new text begins.
    pub(crate) begin: Option<u32>,
    /// Which call of the inputs fails.
    pub(crate) failing: Option<u32>,
    /// How many bytes must be taken in the end.
    pub(crate) taken: Option<u32>,
    /// How many bytes must be left in the end.
    pub(crate) left: Option<u32>,
    pub(crate) each: Each,
    /// The number of the first run.
    pub(crate) first: u32,
    /// The number behind that of the last run.
    pub(crate) end: u32,
}

impl Script {
    /// The call, made once and without limits.
    pub(crate) fn of(call: Call) -> Script {
        Script {
            call,
            most: u32::MAX,
            times: None,
            begin: None,
            failing: None,
            taken: None,
            left: None,
            each: Each::Nothing,
            first: 0,
            end: 1,
        }
    }

    /// Takes a line.
    pub(crate) fn add(&mut self, kind: &str, rest: &str) -> Result<(), Fault> {
        match kind {
            "each-call" => self.repeat(Each::Call, rest),
            "each-front" => self.repeat(Each::Front, rest),
            "each-most" => self.repeat(Each::Most, rest),
            _ => self.set(kind, number(rest)?),
        }
    }

    /// Takes the first and the last number of runs.
    fn repeat(&mut self, each: Each, rest: &str) -> Result<(), Fault> {
        let (first, last) = range(rest)?;
        self.each = each;
        self.first = first;
        self.end = last.saturating_add(1);
        Ok(())
    }

    /// Takes a number that a row may have.
    fn set(&mut self, kind: &str, number: u32) -> Result<(), Fault> {
        match kind {
            "most" => self.most = number,
            "times" => self.times = Some(number),
            "begin" => self.begin = Some(number),
            "failing-call" => self.failing = Some(number),
            "taken" => self.taken = Some(number),
            "left" => self.left = Some(number),
            _ => return Err(Fault::UnknownKind),
        }
        Ok(())
    }

    /// The script of the run of this number.
    pub(crate) fn of_run(mut self, run: u32) -> Script {
        match self.each {
            Each::Call => self.failing = Some(run),
            Each::Most => self.most = run,
            _ => {}
        }
        self
    }

    /// How often the call is made at most.
    pub(crate) fn most_times(self) -> u32 {
        match (self.times, self.call) {
            (Some(times), _) => times,
            (None, Call::Next | Call::All) => u32::MAX,
            (None, _) => 1,
        }
    }

    /// Whether the counts of bytes in the end are those that must be.
    pub(crate) fn allows(self, counts: Counts) -> bool {
        may_be(self.taken, counts.taken) && may_be(self.left, counts.left)
    }
}

/// Whether this may be the number, where one is wanted.
fn may_be(wanted: Option<u32>, number: u64) -> bool {
    match wanted {
        Some(wanted) => u64::from(wanted) == number,
        None => true,
    }
}

/// How many bytes were taken, and how many were left.
#[derive(Clone, Copy)]
pub(crate) struct Counts {
    pub(crate) taken: u64,
    pub(crate) left: u64,
}

impl Counts {
    /// The counts of a call that reads from no source.
    pub(crate) fn none() -> Counts {
        Counts { taken: 0, left: 0 }
    }
}
