//! One step: the next stream is opened, or the next automaton of the open one is read.

ghost use Rattle.std.specs.Prelude.{◌≡◌, All, None, false, length, true};
ghost use Rattle.aut_io.specs.Seen.{SinkSeen};
ghost use Rattle.autfilt_run.specs.Plans.{plan_streams};
ghost use Rattle.autfilt_run.specs.Turns.{IsStep, asks};
ghost use Rattle.autfilt_run.specs.declared.session.Stage.{Stage};
ghost use Rattle.autfilt_run.specs.Points.{operands_in};
ghost use Rattle.filter_plan.specs.Words.{operands};
ghost use Rattle.plan_meaning.specs.Complements.{AreComplementsKept};

use super::{Session, Stage, Turn};
use crate::fault::RunFault;
use crate::handle::handle;
use crate::operand_files::operand_count;
use crate::streams::{open_stream, stream_count};
use aut_io::{Inputs, Sink};
use hoa_reader::{Front, read_raw};
use plan_meaning::Complements;
use std::alloc::Global;

impl Session {
    /// One step, without the change of stage, which `step` makes.
    pub(super) fn turn<I: Inputs, W: Sink>(
        &mut self,
        alloc: Global,
        complements: &mut Complements,
        inputs: &mut I,
        out: &mut W,
    ) -> Result<Turn, RunFault>
        requires kept { AreComplementsKept self.old.plan (operands_in self.old) complements.old }
        requires spent { self.old.lexer.spent ≡ false }
        requires held { self.old.lexer.held ≡ None }
        requires stage { self.old.stage ≡ Stage.Over }
        requires all_read { length self.old.operands ≡ length (operands self.old.plan) }
        requires names { All I.may_open (plan_streams self.old.plan) }
        ensures step { IsStep result self.old self.new (I.seen inputs.old) (I.seen inputs.new) (W.seen out.old) (W.seen out.new) }
        ensures stage { self.new.stage ≡ Stage.Over }
        ensures kept { AreComplementsKept self.old.plan (operands_in self.old) complements.new }
    {
        if !self.asks_on() {
            return Ok(Turn::Done);
        }
        if self.is_open {
            self.read_next(alloc, complements, inputs, out)
        } else {
            self.open_next(alloc, inputs)
        }
    }

    /// Whether fewer automata were kept than `-n` asks for.
    fn asks_on(&self) -> bool
        ensures { result ≡ asks self.now }
    {
        match self.plan.most {
            Some(most) => self.kept != u64::from(most),
            None => true,
        }
    }

    /// Opens the next stream, if there is one.
    fn open_next<I: Inputs>(&mut self, alloc: Global, inputs: &mut I) -> Result<Turn, RunFault>
        requires asks { asks self.old ≡ true }
        requires closed { self.old.is_open ≡ false }
        requires spent { self.old.lexer.spent ≡ false }
        requires held { self.old.lexer.held ≡ None }
        requires stage { self.old.stage ≡ Stage.Over }
        requires all_read { length self.old.operands ≡ length (operands self.old.plan) }
        requires names { All I.may_open (plan_streams self.old.plan) }
        ensures step { (out : SinkSeen) → IsStep result self.old self.new (I.seen inputs.old) (I.seen inputs.new) out out }
        ensures stage { self.new.stage ≡ Stage.Over }
    {
        if self.opened == stream_count(&self.plan) {
            return Ok(Turn::Done);
        }
        self.tried = operand_count(&self.plan) as u128 + self.opened as u128 + 1;
        self.lexer.begin();
        open_stream(alloc, &self.plan, self.opened, inputs)?;
        self.opened += 1;
        self.is_open = true;
        Ok(Turn::Opened)
    }

    /// Reads the next automaton of the open stream, or its end.
    fn read_next<I: Inputs, W: Sink>(
        &mut self,
        alloc: Global,
        complements: &mut Complements,
        inputs: &mut I,
        out: &mut W,
    ) -> Result<Turn, RunFault>
        requires kept { AreComplementsKept self.old.plan (operands_in self.old) complements.old }
        requires asks { asks self.old ≡ true }
        requires is_open { self.old.is_open ≡ true }
        requires spent { self.old.lexer.spent ≡ false }
        requires held { self.old.lexer.held ≡ None }
        requires stage { self.old.stage ≡ Stage.Over }
        requires all_read { length self.old.operands ≡ length (operands self.old.plan) }
        ensures step { IsStep result self.old self.new (I.seen inputs.old) (I.seen inputs.new) (W.seen out.old) (W.seen out.new) }
        ensures stage { self.new.stage ≡ Stage.Over }
        ensures kept { AreComplementsKept self.old.plan (operands_in self.old) complements.new }
    {
        match read_raw(alloc, &mut self.lexer, inputs)? {
            Front::Blank => {
                self.is_open = false;
                Ok(Turn::StreamEnd)
            }
            Front::Aborted => {
                self.skipped += 1;
                Ok(Turn::Skipped)
            }
            Front::Whole(raw) => {
                if handle(alloc, &self.plan, &self.operands, complements, raw, out)? {
                    self.kept += 1;
                    Ok(Turn::Kept)
                } else {
                    Ok(Turn::Dropped)
                }
            }
        }
    }
}
