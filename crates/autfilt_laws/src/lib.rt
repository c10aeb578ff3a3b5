//! Laws about runs of the command: uniqueness, completeness and existence. No code runs them.
//!
//! Each is the contract of a public function that computes nothing. `specs` has their statements.
#![tactic(auto)]

mod answers;
mod places;
mod runs;

pub use answers::{answer_completes, one_answer, some_answer};
pub use places::{none_asks_behind, place_examples, refusals_are_shown, whole_passes_others};
pub use runs::{a_run_exists, each_is_due, good_texts_are_read, runs_agree, runs_end_alike};
