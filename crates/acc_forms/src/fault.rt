//! The errors of listing terms.

ghost use Rattle.std.specs.Prelude.{◌≡◌};
ghost use Rattle.acc_forms.specs.declared.fault.FormFault.{FormFault};

use aut_base::Memory;

/// Why the terms of a condition were not listed.
#[derive(Clone, Copy, Debug, PartialEq, Eq)]
pub enum FormFault {
    /// There are too many.
    Terms,
    /// Want of memory.
    Memory,
}

impl From<Memory> for FormFault {
    ghost from_gives = { λ _ fault. fault ≡ FormFault.Memory };

    fn from(_want: Memory) -> FormFault {
        FormFault::Memory
    }
}
