//! Why there is no plan.

use aut_base::Memory;

/// Why the words have no plan.
#[derive(Clone, Copy, Debug, PartialEq, Eq)]
pub enum UsageFault {
    /// The words aren't a valid command line.
    Usage,
    /// Want of memory.
    Memory,
}

impl From<Memory> for UsageFault {
    ghost use Rattle.std.specs.Prelude.{◌≡◌};
    ghost use Rattle.filter_plan.specs.declared.fault.UsageFault.TheVariants as fault;

    ghost from_gives = { λ _ outcome. outcome ≡ fault.Memory };

    fn from(_want: Memory) -> UsageFault {
        UsageFault::Memory
    }
}
