//! Why a session ends before all is read.

ghost use Rattle.std.specs.Prelude.{◌≡◌};
ghost use Rattle.autfilt_run.specs.declared.fault.RunFault.{RunFault};

use aut_base::{Limit, Memory, OpenFail};
use hoa_reader::{ElabFault, ReadFault, Rule};
use plan_meaning::PlanFault;

/// Why a session ended before all was read.
#[derive(Clone, Copy, Debug, PartialEq, Eq)]
pub enum RunFault {
    /// A text could not be opened.
    CannotOpen,
    /// A read failed.
    ReadFault,
    /// The offset at which no token can continue the text.
    SyntaxAt(u64),
    /// A text ended inside an automaton, a comment or a token.
    Truncated,
    /// The first rule that an automaton breaks.
    Invalid(Rule),
    /// The limit that was passed.
    Limit(Limit),
    /// A write failed.
    WriteFault,
    /// Want of memory.
    Memory,
}

impl From<Memory> for RunFault {
    ghost from_gives = { λ _ fault. fault ≡ RunFault.Memory };

    fn from(_want: Memory) -> RunFault {
        RunFault::Memory
    }
}

impl From<OpenFail> for RunFault {
    ghost use Rattle.std.specs.Prelude.{◌≡◌};
    ghost use Rattle.autfilt_run.specs.Faults.{fault_of_opening};

    ghost from_gives = { λ fail fault. fault ≡ fault_of_opening fail };

    fn from(fail: OpenFail) -> RunFault {
        match fail {
            OpenFail::Failed => RunFault::CannotOpen,
            OpenFail::Memory => RunFault::Memory,
        }
    }
}

impl From<ReadFault> for RunFault {
    ghost use Rattle.std.specs.Prelude.{◌≡◌};
    ghost use Rattle.autfilt_run.specs.Faults.{fault_of_reading};

    ghost from_gives = { λ read fault. fault ≡ fault_of_reading read };

    fn from(fault: ReadFault) -> RunFault {
        match fault {
            ReadFault::Syntax(offset) => RunFault::SyntaxAt(offset),
            ReadFault::Truncated => RunFault::Truncated,
            ReadFault::Depth => RunFault::Limit(Limit::Depth),
            ReadFault::Bytes => RunFault::Limit(Limit::Bytes),
            ReadFault::Read => RunFault::ReadFault,
            ReadFault::Memory => RunFault::Memory,
        }
    }
}

impl From<ElabFault> for RunFault {
    ghost use Rattle.std.specs.Prelude.{◌≡◌};
    ghost use Rattle.autfilt_run.specs.Faults.{fault_of_describing};

    ghost from_gives = { λ described fault. fault ≡ fault_of_describing described };

    fn from(fault: ElabFault) -> RunFault {
        match fault {
            ElabFault::Invalid(rule) => RunFault::Invalid(rule),
            ElabFault::Limit(which) => RunFault::Limit(which),
            ElabFault::Memory => RunFault::Memory,
        }
    }
}

impl From<PlanFault> for RunFault {
    ghost use Rattle.std.specs.Prelude.{◌≡◌};
    ghost use Rattle.autfilt_run.specs.Faults.{fault_of_plan};

    ghost from_gives = { λ asked fault. fault ≡ fault_of_plan asked };

    fn from(fault: PlanFault) -> RunFault {
        match fault {
            PlanFault::Limit(which) => RunFault::Limit(which),
            PlanFault::Memory => RunFault::Memory,
        }
    }
}
