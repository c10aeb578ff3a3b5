//! Automata whose labels are guards: decision diagrams in a store that each automaton owns.
//!
//! A caller sees `Automaton`: its constructors, its parts, whether it is deterministic and complete, and the same
//! automaton over more names. What contracts see of it is defined in `specs/SymbolicAutomata`, the two properties in
//! `specs/Deterministic`, and other lists of names in `specs/OtherNames`.
#![tactic(auto)]

mod automaton;
mod copies;
mod described;
mod join;
mod link;
mod over;
mod survey;

pub use automaton::Automaton;
pub use copies::{copy_link, copy_marks, copy_names, copy_numbers};
pub use join::{NameFault, join_names};
pub use link::{Link, Links};
