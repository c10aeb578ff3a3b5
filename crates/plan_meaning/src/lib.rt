//! What a plan asks of one automaton: the verdict of its filters, and what its operations, its form and its completion make
//! of it.
//!
//! A caller sees `judge`, `change` and `refute`, the operands that they take, the complements of operands that are kept
//! from one automaton to the next, and why they may refuse. `specs/Operands` says which operand belongs to which option,
//! `specs/Filters` what the verdict is, `specs/Changes` what is made and which words it accepts, `specs/Promises` what a
//! form promises, `specs/Refutations` what refutes inclusion, and `specs/Limits` which limits may be passed where an
//! automaton is determinised, or two are combined or compared. `specs/FilterExamples` and
//! `specs/ChangeExamples` have small automata to see it by.
#![tactic(auto)]

mod change_laws;
mod changing;
mod complements;
mod fault;
mod judging;
mod laws;
mod operands;
mod refuting;

pub use change_laws::{change_examples, changes_are_determined, changes_exist};
pub use changing::change;
pub use complements::Complements;
pub use fault::PlanFault;
pub use judging::judge;
pub use laws::{a_verdict_exists, filter_examples, only_own_limits, verdict_is_one};
pub use operands::Automata;
pub use refuting::{Refutation, refute};
