//! Filtering and printing of an automaton that was read.

ghost use Rattle.std.specs.Prelude.{◌≡◌, if◌then◌else◌, map, true, None};
ghost use Rattle.std.specs.Option.{option_copied};
ghost use Rattle.aut_core.specs.SymbolicAutomata.{automaton_of};
ghost use Rattle.autfilt_run.specs.Plans.{prints_each};
ghost use Rattle.autfilt_run.specs.inner.Handling.{Handles, PrintsOrStops};
ghost use Rattle.filter_plan.specs.Words.{changes};
ghost use Rattle.hoa_parser.specs.Raw.{written};
ghost use Rattle.plan_meaning.specs.Complements.{AreComplementsKept};
ghost use Rattle.plan_meaning.specs.Operands.{AreOperands, IsOfReadSize};

use crate::fault::RunFault;
use crate::figures::line_of;
use crate::refuted::refutation_line;
use crate::taken::automaton_taken;
use aut_base::{Failed, Text};
use aut_core::Automaton;
use aut_io::Sink;
use filter_plan::{Output, Plan, changes_automata};
use hoa_reader::Raw;
use hoa_writer::write_text;
use plan_meaning::{Automata, Complements, PlanFault, change, judge};
use std::alloc::Global;

/// Filters an automaton that was read, writes its text where one is due, and answers whether it is kept. What was parsed is
/// freed once the automaton is built, so that it takes no memory meanwhile.
pub(crate) fn handle<W: Sink>(
    alloc: Global,
    plan: &Plan,
    operands: &Automata,
    complements: &mut Complements,
    raw: Raw,
    out: &mut W,
) -> Result<bool, RunFault>
    requires operands { AreOperands plan.now (map automaton_of operands.now) }
    requires kept { AreComplementsKept plan.now (map automaton_of operands.now) complements.old }
    ensures handles { Handles result plan.now (map automaton_of operands.now) (written raw) (W.seen out.old) (W.seen out.new) }
    ensures kept { AreComplementsKept plan.now (map automaton_of operands.now) complements.new }
{
    let read = automaton_taken(alloc, raw)?;
    let automaton = read.automaton;
    let name = read.name;
    if !judge(alloc, plan, operands, complements, &automaton)? {
        return Ok(false);
    }
    if !prints_each(plan) {
        return Ok(true);
    }
    let text = printed(alloc, plan, operands, complements, automaton, name.as_ref())?;
    match out.write(text.as_bytes()) {
        Ok(()) => Ok(true),
        Err(Failed) => Err(RunFault::WriteFault),
    }
}

/// Whether something is printed of each automaton that is kept.
fn prints_each(plan: &Plan) -> bool
    ensures { result ≡ prints_each plan.now }
{
    !(plan.quiet || plan.count)
}

/// What is printed of an automaton: the canonical text of what the plan makes of it, a line of figures of that, or a
/// refutation of the automaton as it was read.
fn printed(
    alloc: Global,
    plan: &Plan,
    operands: &Automata,
    complements: &mut Complements,
    a: Automaton,
    name: Option<&Text>,
) -> Result<Text, PlanFault>
    requires operands { AreOperands plan.now (map automaton_of operands.now) }
    requires size { IsOfReadSize (automaton_of a) }
    requires kept { AreComplementsKept plan.now (map automaton_of operands.now) complements.old }
    ensures prints { PrintsOrStops result plan.now.output plan.now (map automaton_of operands.now) (automaton_of a) (option_copied name.entry) }
    ensures kept { AreComplementsKept plan.now (map automaton_of operands.now) complements.new }
{
    match &plan.output {
        Output::Hoa => {
            let made = change(alloc, plan, operands, a)?;
            Ok(write_text(alloc, &made, name_due(plan, name))?)
        }
        Output::Stats(format) => {
            let made = change(alloc, plan, operands, a)?;
            Ok(line_of(alloc, format, &made)?)
        }
        Output::Refute(_) => refutation_line(alloc, plan, operands, complements, &a),
    }
}

/// The name that is printed: none where the plan has an operation, a form or completion.
fn name_due<'a>(plan: &Plan, name: Option<&'a Text>) -> Option<&'a Text>
    ensures { option_copied result ≡ (if changes plan.now then None else option_copied name.entry) }
{
    if changes_automata(plan) { None } else { name }
}
