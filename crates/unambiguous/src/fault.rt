//! Why it was not decided whether an automaton is unambiguous.

ghost use Rattle.std.specs.Prelude.{◌≡◌};
ghost use Rattle.aut_ops.specs.declared.fault.PairFault.{PairFault};
ghost use Rattle.unambiguous.specs.Faults.{square_fault};
ghost use Rattle.unambiguous.specs.declared.fault.SquareFault.{SquareFault};

use aut_base::Memory;
use aut_ops::PairFault;

/// Why it was not decided whether an automaton is unambiguous.
#[derive(Clone, Copy, Debug, PartialEq, Eq)]
pub enum SquareFault {
    /// More pairs of states are reached than `aut_base::MOST_PAIRS`.
    Pairs,
    /// Want of memory.
    Memory,
}

impl From<Memory> for SquareFault {
    ghost from_gives = { λ _ fault. fault ≡ SquareFault.Memory };

    fn from(_want: Memory) -> SquareFault {
        SquareFault::Memory
    }
}

impl From<PairFault> for SquareFault {
    ghost from_gives = { λ came fault. fault ≡ square_fault came };

    /// The square has the names of the automaton, so `Names` never occurs.
    fn from(came: PairFault) -> SquareFault {
        match came {
            PairFault::Pairs => SquareFault::Pairs,
            PairFault::Names | PairFault::Memory => SquareFault::Memory,
        }
    }
}
