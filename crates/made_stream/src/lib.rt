//! The generated stream: inputs with one text, which is computed as it is read.
//!
//! A caller makes `Made` of a number of automata and reads it as any other inputs. The text is defined in `specs/Made`, and
//! written out for the first automata in `specs/MadeExamples`.
#![tactic(auto)]

mod made;

pub use made::{MOST_MADE, Made, made_examples};
