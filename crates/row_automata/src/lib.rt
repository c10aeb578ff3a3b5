//! Small automata for programs of rows: parsing, printing, pseudo-random and exhaustive generation, and two independent
//! decision procedures for the words that they accept.
#![tactic(auto)]

mod build;
mod choices;
mod conditions;
mod notation;
mod outcomes;
mod paths;
mod product;
mod show;
mod words;

pub use build::{Plain, marks, named, standing};
pub use choices::{Choices, chosen};
pub use conditions::{ALL_CONDITIONS, CONDITIONS, condition, meets};
pub use notation::read;
pub use outcomes::Accepted;
pub use paths::{Paths, accepted};
pub use product::accepts;
pub use show::{add_automaton, add_pair, count_call};
pub use words::{Letters, Word, Words};
