//! Emptiness of automata with any Emerson-Lei condition (Emerson and Lei 1987), and a lasso word that an automaton
//! accepts.
//!
//! A caller sees `accepts_some` and `accepted_word`. What they answer is defined in `specs/Emptiness`; `specs/inner` is for the inner
//! functions.
#![tactic(auto)]

mod emptiness;
mod groups;
mod judge;
mod live;
mod needed;
mod search;
mod side;
mod split;
mod taken;
mod tour;
mod verdict;
mod word;

pub use emptiness::{accepted_word, accepts_some};
