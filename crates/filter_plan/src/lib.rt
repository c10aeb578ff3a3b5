//! What the words of the command line ask for: which filters, operations and form, what is printed, and which streams are
//! read.
//!
//! A caller gives the words to `read_plan` and gets a `Plan`, or `Usage` exactly where the words are no plan. A plan is
//! defined in `specs`: `Table` has the options, one row each, `Numbers`, `Spans`, `Formats` and `Hiding` what their values
//! are read as, and `Words` the rules between them.
#![tactic(auto)]

mod command;
mod entry;
mod fault;
mod file;
mod file_counts;
mod form;
mod format;
mod group;
mod hidden;
mod laws;
mod matching;
mod number;
mod output;
mod pattern;
mod plan;
mod range;
mod read;
mod reading;
mod rules;
mod streams;
mod table;
mod values;

pub use fault::UsageFault;
pub use file_counts::file_count;
pub use format::{Piece, StatsText};
pub use laws::{one_plan, word_examples};
pub use plan::{Form, Hidden, Output, Plan};
pub use range::Range;
pub use read::read_plan;
pub use rules::changes_automata;
