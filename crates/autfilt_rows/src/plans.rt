//! Rows of plans: the words of a command line, and what is read of them.

mod shown;
mod values;

use crate::words::add_words;
use aut_base::{Memory, Words};
use filter_plan::{UsageFault, read_plan};
use row_files::{Answer, Answers, Count, Fault, Stop, ask};
use shown::show_plan;
use std::alloc::Global;

/// The files of rows, in the folder where the program runs.
const FILES: [&str; 4] = [
    "plans/options.rows",
    "plans/values.rows",
    "plans/spellings.rows",
    "plans/together.rows",
];

/// Counts these rows, and those with another outcome.
pub(crate) fn count_all(rt: &HostRuntime, count: &mut Count) -> Result<(), Stop> {
    ask(rt, &FILES, Plans, count)
}

/// Answers with the plan of the words in the first line, without the beginning that the second line states.
#[derive(Clone, Copy)]
struct Plans;

impl Answers for Plans {
    fn add_answer(
        &self,
        rt: &HostRuntime,
        answer: &mut Answer,
        call: &str,
        lines: &str,
    ) -> Result<(), Fault> {
        if call != "read_plan" {
            return Err(Fault::UnknownKind);
        }
        let (line, front) = lines.split_once('\n').unwrap_or((lines, ""));
        let mut words = Words::new(rt.alloc());
        add_words(rt.alloc(), &mut words, line)?;
        Ok(add_rest(rt.alloc(), answer, &words, front)?)
    }
}

/// Adds what follows this beginning of the outcome.
fn add_rest(alloc: Global, answer: &mut Answer, words: &Words, front: &str) -> Result<(), Memory> {
    let mut outcome = Answer::new(alloc);
    add_outcome(alloc, &mut outcome, words)?;
    let outcome = outcome.end()?;
    let rest = outcome.as_bytes().strip_prefix(front.as_bytes());
    answer.add(rest.unwrap_or(b"another beginning"));
    Ok(())
}

/// Adds the outcome of reading the words.
fn add_outcome(alloc: Global, outcome: &mut Answer, words: &Words) -> Result<(), Memory> {
    match read_plan(alloc, words) {
        Ok(plan) => show_plan(outcome, &plan),
        Err(UsageFault::Usage) => outcome.add(b"usage"),
        Err(UsageFault::Memory) => return Err(Memory),
    }
    Ok(())
}
