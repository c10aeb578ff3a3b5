//! Search for a lasso word that two automata both accept; where the second is a complement, that is a test of language
//! inclusion.
//!
//! A caller sees `accept_together`, `counterexample` and laws. What they answer is defined in `specs/Common`.
#![tactic(auto)]

mod law;
mod search;

pub use law::{included_where_none, not_included_where_word, same_where_none_twice};
pub use search::{accept_together, counterexample};
