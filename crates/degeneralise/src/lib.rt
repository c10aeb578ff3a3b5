//! The Büchi form of an automaton: one acceptance set, which an accepting run is in again and again.
//!
//! A caller sees `to_buchi` and why it may refuse. The construction is defined in `specs/Buchi`.
#![tactic(auto)]

mod buchi;
mod fault;
mod generalised;
mod levels;
mod links;
mod watches;

pub use buchi::to_buchi;
pub use fault::BuchiFault;
