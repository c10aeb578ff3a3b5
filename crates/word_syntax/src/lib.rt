//! A notation of lasso words and of patterns of them: reading, printing, and the automaton of a pattern.
//!
//! The tokens are defined in `specs/Tokens`, the grammar over them in `specs/Grammar`, and the pattern that a text writes, or the
//! offset of its error, in `specs/Writing`.
#![tactic(auto)]

mod automaton;
mod bytes;
mod chain;
mod law;
mod letter;
mod letters;
mod lexer;
mod names;
mod next;
mod over;
mod pattern;
mod period;
mod print;
mod read;
mod reduced;
mod stage;
mod token;
mod word;

pub use automaton::pattern_automaton;
pub use law::{one_reading, one_reduced_lasso, printed_is_read_back};
pub use over::is_over;
pub use pattern::{LabelList, Pattern, WordFault};
pub use print::print_word;
pub use read::{read_name, read_word};
pub use reduced::reduce;
