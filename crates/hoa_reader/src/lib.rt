//! What an automaton that was read describes, if it keeps the rules and is within the limits.
//!
//! A caller sees `build`, which makes the automaton, `describe`, which tells of it in plain data, why both may refuse, and all of
//! `hoa_parser`, which reads the automaton. The rules stand in `specs/Validity`, what is described in `specs/Described`, the
//! counts in `specs/Counts`, and `specs/Elaborating` says what both answer in these terms. The other definitions speak of the
//! inner functions only.
#![tactic(auto)]

mod elaborate;
mod laws;

pub use elaborate::{ElabFault, Named, Rule, build, describe};
pub use hoa_parser::{
    EdgeEnds, Front, Item, Items, Raw, RawEdge, RawEdges, RawLabel, RawLabels, RawState, RawStates,
    ReadFault, bad_is_hopeless, can_be_written_down, grammar_examples, one_raw, one_standing,
    read_raw, settled_stays, some_standing, whole_goes_no_further, written_down_is_read,
};
pub use laws::{describing_examples, describing_laws};
