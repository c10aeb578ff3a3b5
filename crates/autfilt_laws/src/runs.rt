//! Laws of runs: there is one, and no other.

ghost use Rattle.autfilt_laws.specs.Runs.{Completes, EachIsDue, RunsEndAlike, RunsAgree, OperandRunsAgree, ARunExists};

use crate::places::refusals_are_shown;
use aut_ops::trimmed_is_determined;
use hoa_reader::{one_standing, some_standing};
use hoa_writer::canonical_text_reads_back;
use plan_meaning::{a_verdict_exists, changes_are_determined, verdict_is_one};

/// The texts alone determine how a run ends, and what it reads and writes before.
pub fn runs_end_alike()
    ensures { RunsEndAlike }
{
    one_standing();
    verdict_is_one();
    changes_are_determined();
    trimmed_is_determined();
}

/// Of two runs of a plan over the same texts, one reads and writes a prefix of what the other does.
pub fn runs_agree()
    ensures streams { RunsAgree }
    ensures operands { OperandRunsAgree }
{
    one_standing();
    verdict_is_one();
    changes_are_determined();
    trimmed_is_determined();
}

/// A run over readable texts, which hold only automata that are abandoned or can be read without passing a limit, reads all,
/// unless an I/O fault, want of memory or the limit of bytes ends it.
pub fn good_texts_are_read()
    ensures { Completes }
{
    one_standing();
}

/// Under each plan some text is due of each automaton that is kept, or a limit is passed on it.
pub fn each_is_due()
    ensures { EachIsDue }
{
    canonical_text_reads_back();
}

/// There is a run of each plan, over all texts that together have fewer bytes than the limit.
pub fn a_run_exists()
    ensures { ARunExists }
{
    some_standing();
    a_verdict_exists();
    refusals_are_shown();
    each_is_due();
}
