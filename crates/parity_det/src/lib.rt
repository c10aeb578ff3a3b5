//! Deterministic parity automata, and complements.
//!
//! A caller sees `determinise` and `parity`, whose states are the compact Safra trees that a Büchi automaton leads to
//! (Safra 1988, Piterman 2007), and `complement`. What is made is defined in `specs/Determinisation` and
//! `specs/Complements`, state by state; its language is stated by the definition of acceptance alone.
#![tactic(auto)]

mod complements;
mod fault;
mod form;
mod law;
mod marks;
mod moves;
mod trees;

pub use complements::complement;
pub use fault::{CompFault, DetFault};
pub use form::{determinise, parity};
pub use law::{
    complement_exists, complement_is_determined, determinisation_is_determined,
    parity_excludes_limits, parity_exists, parity_has_few_sets, parity_is_determined,
};
