//! Monitors: deterministic automata for the safety closure, the words each of whose prefixes is a prefix of some accepted word.
//!
//! A caller sees `monitor`. Its language is defined in `specs/Prefixes`, its shape and its limits in `specs/Subsets`.
#![tactic(auto)]

mod fault;
mod form;
mod goals;
mod law;
mod subsets;

pub use fault::MonFault;
pub use form::monitor;
pub use law::{
    monitor_accepts, monitor_excludes_limits, monitor_exists, monitor_is_determined,
    pruned_are_live, subset_form_is_determined,
};
