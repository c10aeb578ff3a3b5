//! The whole run of a command line: operands, streams, the end, and the lines about faults.

ghost use Rattle.std.specs.Prelude.{◌≡◌, ◌⊎◌, All, true};
ghost use Rattle.autfilt_run.specs.Asked.{AreRefused, names_opened};
ghost use Rattle.autfilt_run.specs.Run.{EndsBecause, EndsBy, end_of};
ghost use Rattle.autfilt_run.specs.inner.Running.{Carries, FinishesRun, IsFresh, IsNew, Preparing};
ghost use Rattle.autfilt_run.specs.declared.ended.End.{End};
ghost use Rattle.autfilt_run.specs.declared.ended.Ended.{Ended};
ghost use Rattle.autfilt_run.specs.Plans.{count_text, prints_count, plan_streams};
ghost use Rattle.autfilt_run.specs.Points.{name_in};
ghost use Rattle.autfilt_run.specs.declared.fault.RunFault.{RunFault};
ghost use Rattle.autfilt_run.specs.declared.session.Stage.{Stage};
ghost use Rattle.filter_plan.specs.Words.{IsPlan, operands};
ghost use Rattle.filter_plan.specs.declared.plan.Plan.{Plan};

use crate::ended::{End, Ended};
use crate::notes::{note_end, note_skipped, note_turn};
use crate::{Prep, RunFault, Session, Turn};
use aut_base::Words;
use aut_io::{Inputs, Sink};
use filter_plan::{Plan, UsageFault, read_plan};
use made_stream::Made;
use plan_meaning::Complements;
use std::alloc::Global;

/// Prepares a session, and notes each abandoned automaton that is skipped in the files of operands. Answers whether notes are
/// still taken (no note has failed), or how the run ended.
fn prepare<I: Inputs, M: Sink>(
    alloc: Global,
    session: &mut Session,
    inputs: &mut I,
    notes: &mut M,
) -> Result<bool, End>
    requires new { IsNew session.old }
    requires names { All I.may_open (operands session.old.plan) }
    ensures { Preparing result session.old.plan session.new (I.seen inputs.old) (I.seen inputs.new) (M.seen notes.old) (M.seen notes.new) }
{
    let mut noting = true;
    'operands: loop {
        match session.prepare(alloc, inputs) {
            Ok(Prep::Ready) => return Ok(noting),
            Ok(Prep::Skipped) => noting = note_skipped(notes, noting, session.name_in_hand()),
            Err(fault) => {
                let name = session.name_in_hand();
                return Err(note_end(notes, noting, name, End::Fault(fault)));
            }
        }
    }
}

/// Takes the steps of a session until it is done, and keeps the complements of operands from one step to the next. `noting`
/// says whether notes are taken: no note has failed before.
fn take_steps<I: Inputs, W: Sink, M: Sink>(
    alloc: Global,
    session: Session,
    noting: bool,
    inputs: &mut I,
    out: &mut W,
    notes: &mut M,
) -> End
    requires begun { IsFresh session }
    requires names { All I.may_open (plan_streams session.plan) }
    ensures { Carries session noting result (I.seen inputs.old) (I.seen inputs.new) (W.seen out.old) (W.seen out.new) (M.seen notes.old) (M.seen notes.new) }
{
    let mut session = session;
    let mut complements = Complements::new();
    let mut noting = noting;
    'steps: loop {
        let turn = match session.step(alloc, &mut complements, inputs, out) {
            Ok(turn) => turn,
            Err(fault) => {
                return note_end(notes, noting, session.name_in_hand(), End::Fault(fault));
            }
        };
        if turn == Turn::Done {
            let end = finish(&mut session, out);
            return note_end(notes, noting, session.name_in_hand(), end);
        }
        noting = note_turn(notes, noting, turn, session.name_in_hand());
    }
}

/// Writes what is due at the end, and answers how the run ended.
fn finish<W: Sink>(session: &mut Session, out: &mut W) -> End
    requires { session.old.stage ≡ Stage.Done }
    ensures finishes { FinishesRun result (count_text session.old.plan session.old.kept) (record { kept = session.old.kept; skipped = session.old.skipped }) (W.seen out.old) (W.seen out.new) }
    ensures due { result ≡ End.Fault RunFault.WriteFault → prints_count session.old.plan ≡ true }
    ensures same { name_in session.new ≡ name_in session.old }
{
    match session.finish(out) {
        Ok(()) => end_of(session),
        Err(fault) => End::Fault(fault),
    }
}

/// The end of a run that read all.
fn end_of(session: &Session) -> End
    ensures { result ≡ end_of (record { kept = session.now.kept; skipped = session.now.skipped }) }
{
    if session.skipped() > 0 {
        End::Aborts
    } else if session.kept() > 0 {
        End::Output
    } else {
        End::NoneOutput
    }
}

/// Reads the words of the command line after the program's name and does what they ask for: it reads the operands, and then
/// automata from the streams; filters each, and writes the canonical text of what is made of those that are kept, a line of
/// figures of it, a refutation of each, or their number. Each automaton that is abandoned by `--ABORT--` is skipped, with a
/// line in `notes`; the line about a fault goes there, too.
pub fn autfilt<I: Inputs, W: Sink, M: Sink>(
    alloc: Global,
    words: &Words,
    inputs: &mut I,
    out: &mut W,
    notes: &mut M,
) -> Ended
    // No other name is opened than those of the plan's operands and streams.
    requires { (plan : Plan) → IsPlan words.now plan → All I.may_open (names_opened plan) }

    // What was read, what was written to the output and to the notes, and what ended the run.
    ensures run { EndsBy words.now result (I.seen inputs.old) (I.seen inputs.new) (W.seen out.old) (W.seen out.new) (M.seen notes.old) (M.seen notes.new) }

    // An I/O fault is answered only where its count rose, and any other answer only where no call failed.
    ensures causes { EndsBecause result (I.seen inputs.old) (I.seen inputs.new) (W.seen out.old) (W.seen out.new) }

    // Words that are no plan are refused, and they alone; then nothing is opened, read or written.
    ensures usage { result ≡ Ended.Usage → AreRefused words.now }
    ensures refused { AreRefused words.now → (result ≡ Ended.Usage) ⊎ (result ≡ Ended.Memory) }
    ensures untouched { AreRefused words.now → (I.seen inputs.new ≡ I.seen inputs.old) × (W.seen out.new ≡ W.seen out.old) }
{
    let plan = match read_plan(alloc, words) {
        Ok(plan) => plan,
        Err(UsageFault::Usage) => return Ended::from(note_end(notes, true, b"", End::Usage)),
        Err(UsageFault::Memory) => {
            return Ended::from(note_end(notes, true, b"", End::Fault(RunFault::Memory)));
        }
    };
    let made = plan.made;
    let mut session = Session::new(alloc, plan);
    let noting = match prepare(alloc, &mut session, inputs, notes) {
        Ok(noting) => noting,
        Err(end) => return Ended::from(end),
    };
    match made {
        None => Ended::from(take_steps(alloc, session, noting, inputs, out, notes)),
        Some(count) => {
            let mut made = Made::new(count);
            Ended::from(take_steps(alloc, session, noting, &mut made, out, notes))
        }
    }
}
