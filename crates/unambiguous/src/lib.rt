//! Whether an automaton is unambiguous: on no lasso word two of its accepting runs differ in an edge.
//!
//! A caller sees `is_unambiguous` and laws. Accepting runs and unambiguous automata are defined in `specs/Runs`, the square
//! that decides it in `specs/Parted`.
#![tactic(auto)]

mod decision;
mod fault;
mod law;
mod parted;
mod twins;

pub use decision::is_unambiguous;
pub use fault::SquareFault;
pub use law::{
    deterministic_is_unambiguous, parted_decides, places_fix_start, runs_are_acceptance,
    twice_is_ambiguous,
};
