//! Removal of Fin from acceptance conditions by copies of the automaton, one for each term of the condition.
//!
//! A caller sees `copies`, `remove_fin`, and two calls for constructions on top of the copies: `owned_sets`, the sets that
//! each copy owns, and `meets_at`, which edges meet the literals that a run waits for. The construction is defined in
//! `specs/Copies`, what meets a literal in `specs/Meeting`.
#![tactic(auto)]

mod links;
mod meeting;
mod removal;
mod term_copy;

pub use meeting::meets_at;
pub use removal::{copies, remove_fin};
pub use term_copy::owned_sets;
