//! Why there is no verdict on an automaton, or nothing is made of it.

ghost use Rattle.std.specs.Prelude.{◌≡◌};
ghost use Rattle.plan_meaning.specs.declared.fault.PlanFault.{PlanFault};

use acc_forms::FormFault;
use aut_base::{Limit, Memory};
use aut_core::NameFault;
use aut_ops::PairFault;
use degeneralise::BuchiFault;
use monitor_form::MonFault;
use parity_det::CompFault;
use unambiguous::SquareFault;

/// Why there is no verdict on an automaton, or nothing is made of it.
#[derive(Clone, Copy, Debug, PartialEq, Eq)]
pub enum PlanFault {
    /// The limit that was passed.
    Limit(Limit),
    /// Want of memory.
    Memory,
}

impl From<Memory> for PlanFault {
    ghost from_gives = { λ _ fault. fault ≡ PlanFault.Memory };

    fn from(_want: Memory) -> PlanFault {
        PlanFault::Memory
    }
}

impl From<NameFault> for PlanFault {
    ghost use Rattle.std.specs.Prelude.{◌≡◌};
    ghost use Rattle.plan_meaning.specs.inner.Faults.{fault_of_names};

    ghost from_gives = { λ came fault. fault ≡ fault_of_names came };

    fn from(came: NameFault) -> PlanFault {
        match came {
            NameFault::Names => PlanFault::Limit(Limit::Names),
            NameFault::Memory => PlanFault::Memory,
        }
    }
}

impl From<PairFault> for PlanFault {
    ghost use Rattle.std.specs.Prelude.{◌≡◌};
    ghost use Rattle.plan_meaning.specs.inner.Faults.{fault_of_pairs};

    ghost from_gives = { λ came fault. fault ≡ fault_of_pairs came };

    fn from(came: PairFault) -> PlanFault {
        match came {
            PairFault::Names => PlanFault::Limit(Limit::Names),
            PairFault::Pairs => PlanFault::Limit(Limit::Pairs),
            PairFault::Memory => PlanFault::Memory,
        }
    }
}

impl From<SquareFault> for PlanFault {
    ghost use Rattle.std.specs.Prelude.{◌≡◌};
    ghost use Rattle.plan_meaning.specs.inner.Faults.{fault_of_square};

    ghost from_gives = { λ came fault. fault ≡ fault_of_square came };

    fn from(came: SquareFault) -> PlanFault {
        match came {
            SquareFault::Pairs => PlanFault::Limit(Limit::Pairs),
            SquareFault::Memory => PlanFault::Memory,
        }
    }
}

impl From<FormFault> for PlanFault {
    ghost use Rattle.std.specs.Prelude.{◌≡◌};
    ghost use Rattle.plan_meaning.specs.inner.Faults.{fault_of_form};

    ghost from_gives = { λ came fault. fault ≡ fault_of_form came };

    fn from(came: FormFault) -> PlanFault {
        match came {
            FormFault::Terms => PlanFault::Limit(Limit::Terms),
            FormFault::Memory => PlanFault::Memory,
        }
    }
}

impl From<MonFault> for PlanFault {
    ghost use Rattle.std.specs.Prelude.{◌≡◌};
    ghost use Rattle.plan_meaning.specs.inner.Faults.{fault_of_monitor};

    ghost from_gives = { λ came fault. fault ≡ fault_of_monitor came };

    fn from(came: MonFault) -> PlanFault {
        match came {
            MonFault::Terms => PlanFault::Limit(Limit::Terms),
            MonFault::BuchiStates => PlanFault::Limit(Limit::BuchiStates),
            MonFault::Classes => PlanFault::Limit(Limit::Classes),
            MonFault::Subsets => PlanFault::Limit(Limit::Subsets),
            MonFault::Memory => PlanFault::Memory,
        }
    }
}

impl From<CompFault> for PlanFault {
    ghost use Rattle.std.specs.Prelude.{◌≡◌};
    ghost use Rattle.plan_meaning.specs.inner.Faults.{fault_of_parity};

    ghost from_gives = { λ came fault. fault ≡ fault_of_parity came };

    fn from(came: CompFault) -> PlanFault {
        match came {
            CompFault::Terms => PlanFault::Limit(Limit::Terms),
            CompFault::BuchiStates => PlanFault::Limit(Limit::BuchiStates),
            CompFault::Trees => PlanFault::Limit(Limit::Trees),
            CompFault::Nodes => PlanFault::Limit(Limit::Nodes),
            CompFault::Classes => PlanFault::Limit(Limit::Classes),
            CompFault::Memory => PlanFault::Memory,
        }
    }
}

impl From<BuchiFault> for PlanFault {
    ghost use Rattle.std.specs.Prelude.{◌≡◌};
    ghost use Rattle.plan_meaning.specs.inner.Faults.{plan_fault_of_buchi};

    ghost from_gives = { λ came fault. fault ≡ plan_fault_of_buchi came };

    fn from(came: BuchiFault) -> PlanFault {
        match came {
            BuchiFault::Terms => PlanFault::Limit(Limit::Terms),
            BuchiFault::BuchiStates => PlanFault::Limit(Limit::BuchiStates),
            BuchiFault::Memory => PlanFault::Memory,
        }
    }
}
