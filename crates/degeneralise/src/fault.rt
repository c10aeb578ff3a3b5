//! Why there is no Büchi form.

ghost use Rattle.std.specs.Prelude.{◌≡◌};
ghost use Rattle.acc_forms.specs.declared.fault.FormFault.{FormFault};
ghost use Rattle.degeneralise.specs.Faults.{IsFaultOf};
ghost use Rattle.degeneralise.specs.declared.fault.BuchiFault.{BuchiFault};

use acc_forms::FormFault;
use aut_base::Memory;

/// Why a Büchi form was not made.
#[derive(Clone, Copy, Debug, PartialEq, Eq)]
pub enum BuchiFault {
    /// The condition's terms are needed, and too many to be listed.
    Terms,
    /// There would be too many states.
    BuchiStates,
    /// Want of memory.
    Memory,
}

impl From<Memory> for BuchiFault {
    ghost from_gives = { λ _ fault. fault ≡ BuchiFault.Memory };

    fn from(_want: Memory) -> BuchiFault {
        BuchiFault::Memory
    }
}

impl From<FormFault> for BuchiFault {
    ghost from_gives = { IsFaultOf };

    fn from(fault: FormFault) -> BuchiFault {
        match fault {
            FormFault::Terms => BuchiFault::Terms,
            FormFault::Memory => BuchiFault::Memory,
        }
    }
}
