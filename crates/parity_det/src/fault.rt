//! Why an automaton was not determinised or complemented.

ghost use Rattle.std.specs.Prelude.{◌≡◌};
ghost use Rattle.parity_det.specs.Faults.{fault_of_buchi, fault_of_det, fault_of_exploration, step_fault};
ghost use Rattle.parity_det.specs.declared.fault.CompFault.{CompFault};
ghost use Rattle.parity_det.specs.declared.fault.DetFault.{DetFault};

use aut_base::Memory;
use degeneralise::BuchiFault;
use exploration::{Fault, StepFault};
use safra_trees::TreeFault;

/// Why a Büchi automaton was not determinised.
#[derive(Clone, Copy, Debug, PartialEq, Eq)]
pub enum DetFault {
    /// More trees are reached than `aut_base::MOST_TREES`.
    Trees,
    /// A tree that is reached has more nodes than `aut_base::MOST_NODES`.
    Nodes,
    /// The trees that were expanded have more classes of letters together than `aut_base::MOST_CLASSES`.
    Classes,
    /// Want of memory.
    Memory,
}

/// Why an automaton was not determinised or complemented.
#[derive(Clone, Copy, Debug, PartialEq, Eq)]
pub enum CompFault {
    /// The condition's terms are needed, and too many to be listed.
    Terms,
    /// The Büchi form would have too many states.
    BuchiStates,
    /// More trees are reached than `aut_base::MOST_TREES`.
    Trees,
    /// A tree that is reached has more nodes than `aut_base::MOST_NODES`.
    Nodes,
    /// The trees that were expanded have more classes of letters together than `aut_base::MOST_CLASSES`.
    Classes,
    /// Want of memory.
    Memory,
}

impl From<Memory> for DetFault {
    ghost from_gives = { λ _ fault. fault ≡ DetFault.Memory };

    fn from(_want: Memory) -> DetFault {
        DetFault::Memory
    }
}

impl From<Fault> for DetFault {
    ghost from_gives = { λ came fault. fault ≡ fault_of_exploration came };

    fn from(came: Fault) -> DetFault {
        match came {
            Fault::Classes => DetFault::Classes,
            Fault::StepFailed => DetFault::Nodes,
            Fault::States => DetFault::Trees,
            Fault::Memory => DetFault::Memory,
        }
    }
}

impl From<Memory> for CompFault {
    ghost from_gives = { λ _ fault. fault ≡ CompFault.Memory };

    fn from(_want: Memory) -> CompFault {
        CompFault::Memory
    }
}

impl From<BuchiFault> for CompFault {
    ghost from_gives = { λ came fault. fault ≡ fault_of_buchi came };

    fn from(came: BuchiFault) -> CompFault {
        match came {
            BuchiFault::Terms => CompFault::Terms,
            BuchiFault::BuchiStates => CompFault::BuchiStates,
            BuchiFault::Memory => CompFault::Memory,
        }
    }
}

impl From<DetFault> for CompFault {
    ghost from_gives = { λ came fault. fault ≡ fault_of_det came };

    fn from(came: DetFault) -> CompFault {
        match came {
            DetFault::Trees => CompFault::Trees,
            DetFault::Nodes => CompFault::Nodes,
            DetFault::Classes => CompFault::Classes,
            DetFault::Memory => CompFault::Memory,
        }
    }
}

/// The fault of a step of a tree, as one of a step of the exploration.
pub(crate) fn step_fault(fault: TreeFault) -> StepFault
    ensures { result ≡ step_fault fault }
{
    match fault {
        TreeFault::Nodes => StepFault::Failed,
        TreeFault::Memory => StepFault::Memory,
    }
}
