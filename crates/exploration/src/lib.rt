//! Breadth-first exploration of deterministic transition systems, within limits.
//!
//! A caller writes a `TransitionSystem` and calls `explore`. Transition functions are defined in `specs/TransitionFunctions`, the
//! exploration turn by turn, and so which limit it meets first, in `specs/Turns`, and what it finds in `specs/Reached`.
#![tactic(auto)]

mod exploration;
mod fault;
mod law;
mod limits;
mod system;

pub use exploration::{Edge, Explored, explore};
pub use fault::{Fault, StepFault};
pub use law::{ending_is_one, ends_or_meets, outcome_exists, outcome_is_one};
pub use limits::Limits;
pub use system::TransitionSystem;
