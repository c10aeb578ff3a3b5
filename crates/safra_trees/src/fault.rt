//! Why a step was not taken.

ghost use Rattle.std.specs.Prelude.{◌≡◌};
ghost use Rattle.safra_trees.specs.declared.fault.TreeFault.{TreeFault};

use aut_base::Memory;
use std::alloc::AllocError;

/// Why a step was not taken.
#[derive(Clone, Copy, Debug, PartialEq, Eq)]
pub enum TreeFault {
    /// The new tree has more nodes than `aut_base::MOST_NODES`.
    Nodes,
    /// Want of memory.
    Memory,
}

impl From<Memory> for TreeFault {
    ghost from_gives = { λ _ fault. fault ≡ TreeFault.Memory };

    fn from(_want: Memory) -> TreeFault {
        TreeFault::Memory
    }
}

impl From<AllocError> for TreeFault {
    ghost from_gives = { λ _ fault. fault ≡ TreeFault.Memory };

    fn from(_want: AllocError) -> TreeFault {
        TreeFault::Memory
    }
}
