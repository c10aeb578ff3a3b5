//! The canonical text of an automaton.
//!
//! A caller sees `write_text` and the laws of its texts. `specs/CanonicalText` defines the canonical text, with the text of a
//! label from `aut_base`, and `specs/CanonicalWritten` says that it reads back as the automaton. The other definitions are
//! about the inner functions only.
#![tactic(auto)]

mod formula;
mod law;
mod number;
mod parts;
mod write;

pub use law::{
    canonical_form_has_the_same_text, canonical_text_examples, canonical_text_reads_back,
};
pub use write::write_text;
