//! Hiding of one atomic proposition of an automaton: existential quantification, or a fixed truth.
//!
//! A caller sees `remove_ap`, `Hide` (how the proposition is hidden), and laws. What hiding makes of an automaton and of
//! its language is defined in `specs/Hiding`.
#![tactic(auto)]

mod guards;
mod hide;
mod law;
mod removal;
mod table;

pub use hide::Hide;
pub use law::{
    Language, hidden_absent, hidden_accepts, hidden_any, hidden_present, relabelled_is_hidden,
    same_language_same_hidden,
};
pub use removal::remove_ap;
