//! One automaton of HOA v1 from the tokens of its text, as it is written and before any rule is examined.
//!
//! A caller sees `read_raw`, the `Front` of the text that it answers, the `Raw` in it, why it may answer none, and laws of
//! the definitions. What stands next in a text is defined in `specs/Standing`, the grammar in `specs/Grammar`, and
//! `specs/Reads` says what `read_raw` answers in these terms. `specs/inner` speaks of the inner functions only.
#![tactic(auto)]

mod edges;
mod ends;
mod fault;
mod header;
mod laws;
mod parse;
mod raw;
mod read;

pub use edges::RawEdges;
pub use ends::EdgeEnds;
pub use fault::ReadFault;
pub use laws::{
    bad_is_hopeless, can_be_written_down, grammar_examples, one_raw, one_standing, settled_stays,
    some_standing, whole_goes_no_further, written_down_is_read,
};
pub use raw::{Item, Items, Raw, RawEdge, RawLabel, RawLabels, RawState, RawStates};
pub use read::{Front, read_raw};
