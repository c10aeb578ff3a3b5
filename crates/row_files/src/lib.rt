//! Files of rows (test cases), for any calls: a row says what a call is made with and what its result must be.
//!
//! A caller gives `run` the files and a `Row`, which parses the lines of a row, makes its call and compares the result;
//! or gives `ask` the files and an `Answers`, where each row names its call. A `Count` counts all rows of a program, and ends it.
//! An answer in words is an `Answer`. Lines are parsed with `kind_and_rest`, `number`, `numbers`, `range`, `add` and `add_escaped`,
//! and conditions with `read_condition`. A program that makes its rows pseudo-randomly takes numbers from a `Sequence`. The README of
//! this crate has the notation.
#![tactic(auto)]

mod answer;
mod asked;
mod conditions;
mod count;
mod lines;
mod row;
mod sequence;
mod texts;

pub use answer::Answer;
pub use asked::{Answers, ask};
pub use conditions::{read_condition, show_condition};
pub use count::Count;
pub use lines::{Fault, Stop, copied, kind_and_rest, number, numbers, range};
pub use row::{Row, run};
pub use sequence::Sequence;
pub use texts::{add, add_escaped};
