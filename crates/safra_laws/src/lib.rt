//! Laws of compact Safra trees (Safra 1988, Piterman 2007) over letters that are lists of moves, which no code runs.
//!
//! Each is the contract of a public function that does nothing else, and is defined in `specs`.
#![tactic(auto)]

mod example;
mod language;
mod trees;

pub use example::{worked_priorities, worked_round, worked_trees};
pub use language::{
    accepted_is_green, accepted_is_odd, green_has_cycle, green_is_accepted, green_is_odd,
    odd_is_accepted, odd_is_green, priorities_are_below, priority_by_first,
};
pub use trees::{
    first_is_canonical, first_is_tree, root_is_reached, root_moves_are_enough,
    steps_keep_canonical, steps_keep_trees, trees_are_few,
};
