//! How a run ends.

ghost use Rattle.std.specs.Prelude.{◌≡◌};
ghost use Rattle.autfilt_run.specs.Ends.{answer_of_fault};
ghost use Rattle.autfilt_run.specs.Status.{status_of};
ghost use Rattle.autfilt_run.specs.declared.ended.End.{End};
ghost use Rattle.autfilt_run.specs.declared.ended.Ended.{Ended};

use crate::RunFault;
use aut_base::{Limit, Memory};

/// How a run ended.
#[derive(Clone, Copy, Debug, PartialEq, Eq)]
pub enum Ended {
    /// All was read, and at least one automaton was kept.
    Output,
    /// All was read, and none was kept.
    NoneOutput,
    /// All was read, and automata that are abandoned were skipped.
    Aborts,
    /// The words are no plan.
    Usage,
    /// A text could not be opened.
    CannotOpen,
    /// A read failed.
    ReadFault,
    /// A text continues against the grammar, or ends inside an automaton.
    Syntax,
    /// An automaton breaks a rule.
    Invalid,
    /// A limit was passed.
    Limit(Limit),
    /// A write failed.
    WriteFault,
    /// Want of memory.
    Memory,
}

/// How a run ended, with all that the line about it says.
#[derive(Clone, Copy, Debug, PartialEq, Eq)]
pub enum End {
    Output,
    NoneOutput,
    Aborts,
    Usage,
    /// A fault ended the session.
    Fault(RunFault),
}

impl From<Memory> for End {
    ghost use Rattle.autfilt_run.specs.declared.fault.RunFault.{RunFault};

    ghost from_gives = { λ _ end. end ≡ End.Fault RunFault.Memory };

    fn from(_want: Memory) -> End {
        End::Fault(RunFault::Memory)
    }
}

impl From<End> for Ended {
    ghost use Rattle.std.specs.Prelude.{◌≡◌};
    ghost use Rattle.autfilt_run.specs.Ends.{ended_of};

    ghost from_gives = { λ end ended. ended ≡ ended_of end };

    fn from(end: End) -> Ended {
        match end {
            End::Output => Ended::Output,
            End::NoneOutput => Ended::NoneOutput,
            End::Aborts => Ended::Aborts,
            End::Usage => Ended::Usage,
            End::Fault(fault) => ended_at(fault),
        }
    }
}

/// The answer at a fault of the session.
fn ended_at(fault: RunFault) -> Ended
    ensures { result ≡ answer_of_fault fault }
{
    match fault {
        RunFault::CannotOpen => Ended::CannotOpen,
        RunFault::ReadFault => Ended::ReadFault,
        RunFault::SyntaxAt(_) | RunFault::Truncated => Ended::Syntax,
        RunFault::Invalid(_) => Ended::Invalid,
        RunFault::Limit(which) => Ended::Limit(which),
        RunFault::WriteFault => Ended::WriteFault,
        RunFault::Memory => Ended::Memory,
    }
}

impl Ended {
    /// The exit status: 0 for output, 1 for none, 3 for want of memory, and 2 for all else.
    pub fn status(&self) -> u8
        ensures { result ≡ status_of self.now }
    {
        match self {
            Ended::Output => 0,
            Ended::NoneOutput => 1,
            Ended::Memory => 3,
            _ => 2,
        }
    }
}
