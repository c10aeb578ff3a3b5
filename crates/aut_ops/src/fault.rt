//! The errors of products, and of exploring their pairs.

ghost use Rattle.std.specs.Prelude.{◌≡◌};
ghost use Rattle.aut_ops.specs.declared.fault.ExploreFault.{ExploreFault};
ghost use Rattle.aut_ops.specs.declared.fault.PairFault.{PairFault};
ghost use Rattle.aut_ops.specs.inner.Faults.{explored_fault, pair_fault};

use aut_base::Memory;
use aut_core::NameFault;

/// Why a product could not be made.
#[derive(Clone, Copy, Debug, PartialEq, Eq)]
pub enum PairFault {
    /// Together the automata have more names than an automaton may have.
    Names,
    /// More pairs of states are reached than `aut_base::MOST_PAIRS`.
    Pairs,
    /// Want of memory.
    Memory,
}

impl From<Memory> for PairFault {
    ghost from_gives = { λ _ fault. fault ≡ PairFault.Memory };

    fn from(_want: Memory) -> PairFault {
        PairFault::Memory
    }
}

impl From<NameFault> for PairFault {
    ghost from_gives = { λ came fault. fault ≡ pair_fault came };

    fn from(came: NameFault) -> PairFault {
        match came {
            NameFault::Names => PairFault::Names,
            NameFault::Memory => PairFault::Memory,
        }
    }
}

/// Why pairs of states could not be explored.
#[derive(Clone, Copy)]
pub(crate) enum ExploreFault {
    /// More pairs are reached than `aut_base::MOST_PAIRS`.
    Pairs,
    /// Want of memory.
    Memory,
}

impl From<Memory> for ExploreFault {
    ghost from_gives = { λ _ fault. fault ≡ ExploreFault.Memory };

    fn from(_want: Memory) -> ExploreFault {
        ExploreFault::Memory
    }
}

impl From<ExploreFault> for PairFault {
    ghost from_gives = { λ came fault. fault ≡ explored_fault came };

    fn from(came: ExploreFault) -> PairFault {
        match came {
            ExploreFault::Pairs => PairFault::Pairs,
            ExploreFault::Memory => PairFault::Memory,
        }
    }
}
