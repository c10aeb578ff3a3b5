//! The errors of steps and of explorations.

ghost use Rattle.std.specs.Prelude.{◌≡◌};
ghost use Rattle.exploration.specs.declared.fault.Fault.{Fault};
ghost use Rattle.exploration.specs.declared.fault.StepFault.{StepFault};
ghost use Rattle.exploration.specs.Faults.{fault_of_step};

use aut_base::Memory;
use std::alloc::AllocFailed;

/// Why a step could not be taken.
#[derive(Clone, Copy, Debug, PartialEq, Eq)]
pub enum StepFault {
    /// The step's successor would pass a limit of the system itself.
    Failed,
    /// Want of memory.
    Memory,
}

/// Why an exploration ended early.
#[derive(Clone, Copy, Debug, PartialEq, Eq)]
pub enum Fault {
    /// The states that were expanded have more classes together than the limit.
    Classes,
    /// A step of a state that is reached fails.
    StepFailed,
    /// More states are reached than the limit.
    States,
    /// Want of memory.
    Memory,
}

impl From<Memory> for StepFault {
    ghost from_gives = { λ _ fault. fault ≡ StepFault.Memory };

    fn from(_want: Memory) -> StepFault {
        StepFault::Memory
    }
}

impl From<Memory> for Fault {
    ghost from_gives = { λ _ fault. fault ≡ Fault.Memory };

    fn from(_want: Memory) -> Fault {
        Fault::Memory
    }
}

impl<T: Drop> From<AllocFailed<T>> for Fault {
    ghost from_gives = { λ _ fault. fault ≡ Fault.Memory };

    fn from(_want: AllocFailed<T>) -> Fault {
        Fault::Memory
    }
}

impl From<StepFault> for Fault {
    ghost from_gives = { λ came fault. fault ≡ fault_of_step came };

    fn from(came: StepFault) -> Fault {
        match came {
            StepFault::Failed => Fault::StepFailed,
            StepFault::Memory => Fault::Memory,
        }
    }
}
