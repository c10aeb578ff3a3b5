//! Laws of determinised automata (Safra 1988, Piterman 2007), by the definition of acceptance in `aut_base`. No code runs
//! them.
//!
//! Each is the contract of a public function that does nothing else, and is defined in `specs`.
#![tactic(auto)]

mod complement;
mod example;
mod explored;
mod language;

pub use complement::{
    complements_of_the_same, determinised_dual_is_complement, dual_is_complement,
};
pub use example::worked_determinisation;
pub use explored::{classes_of_guards, explored_is_determinised};
pub use language::{determinised_accepts_the_same, well_formed_is_buchi};
