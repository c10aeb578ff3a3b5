//! Why there is no monitor.

ghost use Rattle.std.specs.Prelude.{◌≡◌, ◌≢◌};
ghost use Rattle.degeneralise.specs.declared.fault.BuchiFault.{BuchiFault};
ghost use Rattle.exploration.specs.declared.fault.Fault.{Fault};
ghost use Rattle.monitor_form.specs.Faults.{buchi_fault, exploration_fault};
ghost use Rattle.monitor_form.specs.declared.fault.MonFault.{MonFault};

use aut_base::Memory;
use degeneralise::BuchiFault;
use exploration::Fault;

/// Why a monitor was not made.
#[derive(Clone, Copy, Debug, PartialEq, Eq)]
pub enum MonFault {
    /// The condition's terms are needed, and too many to be listed.
    Terms,
    /// The Büchi form would have too many states.
    BuchiStates,
    /// The sets that were expanded have more classes of letters together than `aut_base::MOST_CLASSES`.
    Classes,
    /// More sets of states are reached than `aut_base::MOST_SUBSETS`.
    Subsets,
    /// Want of memory.
    Memory,
}

impl From<Memory> for MonFault {
    ghost from_gives = { λ _ fault. fault ≡ MonFault.Memory };

    fn from(_want: Memory) -> MonFault {
        MonFault::Memory
    }
}

impl From<BuchiFault> for MonFault {
    ghost from_gives = { λ came fault. fault ≡ buchi_fault came };

    fn from(came: BuchiFault) -> MonFault {
        match came {
            BuchiFault::Terms => MonFault::Terms,
            BuchiFault::BuchiStates => MonFault::BuchiStates,
            BuchiFault::Memory => MonFault::Memory,
        }
    }
}

/// The limit that the exploration met. No step of it fails, so it isn't `StepFailed`.
pub(crate) fn limit_met(fault: Fault) -> MonFault
    requires { fault ≢ Fault.StepFailed }
    ensures { result ≡ exploration_fault fault }
{
    match fault {
        Fault::Classes => MonFault::Classes,
        Fault::States => MonFault::Subsets,
        Fault::Memory => MonFault::Memory,
        Fault::StepFailed => unreachable!(),
    }
}
