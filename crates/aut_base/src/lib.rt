//! The types that every other crate uses: texts, names, letters, lasso words, labels, acceptance conditions, and the automaton that
//! a text describes.
//!
//! A caller sees these types, what their methods compute, the limits of a run, and laws. Letters and words are defined in
//! `specs/Word`, labels and conditions as trees in `specs/Label` and `specs/Formula`, automata in `specs/Automaton`, which
//! words they accept in `specs/Acceptance`, and canonical labels in `specs/Valuation`, `CanonicalLabel` and `LabelText`.
#![tactic(auto)]

mod description;
mod fault;
mod few;
mod formula;
mod label;
mod law;
mod letter;
mod limit;
mod marks;
mod names;
mod rising;
mod seq;
mod well_formed;

pub use description::{Description, Edge, Edges};
pub use fault::{Failed, Memory, OpenFail};
pub use few::FewNumbers;
pub use formula::{Formula, Formulas};
pub use label::{Label, Labels};
pub use law::{
    canonical_accepts_the_same, canonical_examples, canonical_label_keeps_truth,
    other_names_play_no_part, same_truth_same_label, same_word_same_verdict, worked_examples,
};
pub use letter::{Lasso, Letter, Letters};
pub use limit::{
    Limit, MOST_ALIASES, MOST_BUCHI_STATES, MOST_BYTES, MOST_CLASSES, MOST_DEPTH, MOST_EDGES,
    MOST_NAMES, MOST_NODES, MOST_PAIRS, MOST_SETS, MOST_STATES, MOST_SUBSETS, MOST_TERMS,
    MOST_TREES, limits_in_figures,
};
pub use marks::Marks;
pub use names::Names;
pub use rising::in_order;
pub use seq::{Arcs, Flags, Numbers, Places, Seq, Text, Words};
