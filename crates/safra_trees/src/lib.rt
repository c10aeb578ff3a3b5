//! Compact Safra trees with accepting edges, and their step (Safra 1988, Piterman 2007).
//!
//! A tree says where the runs of a Büchi automaton may be after a word. A letter leads from a tree to the next one; here it
//! is the list of the moves that it allows. What a tree and a step are is defined in `specs/Trees` and `specs/Step`.
#![tactic(auto)]

mod claims;
mod event;
mod fault;
mod law;
mod lists;
mod moves;
mod order;
mod packed;
mod passes;
mod room;
mod sight;
mod starting;
mod stepping;
mod tree;

pub use event::Event;
pub use fault::TreeFault;
pub use law::{
    equal_trees_are_one_list, same_list_same_tree, stored_trees_are_trees, worked_steps,
};
pub use moves::{Move, Moves};
pub use packed::PackedTree;
pub use room::Scratch;
pub use starting::start;
pub use stepping::{step, step_in_room, step_packed};
pub use tree::SafraTree;
