//! The texts alone determine the answer of the command.

ghost use Rattle.autfilt_laws.specs.Answers.{AnswerCompletes, OneAnswer, SomeAnswer};

use crate::runs::{a_run_exists, good_texts_are_read, runs_end_alike};
use filter_plan::one_plan;
use hoa_reader::one_standing;

/// Two runs of the same words over the same texts, without I/O faults and want of memory, have the same answer and the same
/// notes, and write the same where the plan determines what is printed.
pub fn one_answer()
    ensures { OneAnswer }
{
    one_standing();
    runs_end_alike();
    one_plan();
}

/// A run over readable texts, without I/O faults and want of memory, read all that was asked for, or ended at the limit of
/// bytes.
pub fn answer_completes()
    ensures { AnswerCompletes }
{
    good_texts_are_read();
    one_plan();
}

/// Words that are a plan have such an answer, over all texts that together have fewer bytes than the limit.
pub fn some_answer()
    ensures { SomeAnswer }
{
    a_run_exists();
}
