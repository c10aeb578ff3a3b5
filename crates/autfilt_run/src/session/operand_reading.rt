//! Reading of the operands, one after the other.

ghost use Rattle.std.specs.Prelude.{◌≡◌, ◌+◌, ◌<◌, All, IfOk, None, OnErr, OnOk, false, length, true};
ghost use Rattle.autfilt_run.specs.Points.{open_count};
ghost use Rattle.autfilt_run.specs.Preparing.{Prepares};
ghost use Rattle.autfilt_run.specs.declared.session.Prep.TheVariants as prep;
ghost use Rattle.autfilt_run.specs.declared.session.Stage.{Stage};
ghost use Rattle.autfilt_run.specs.declared.session.operand_reading.OperandTurn.TheVariants as turn;
ghost use Rattle.autfilt_run.specs.inner.OperandTurns.{TurnsOperands};
ghost use Rattle.filter_plan.specs.Words.{operands};

use super::{Prep, Session, Stage};
use crate::fault::RunFault;
use crate::operand_files::{operand_count, operand_file};
use crate::taken::automaton_taken;
use aut_io::Inputs;
use hoa_reader::{Front, read_raw};
use std::alloc::Global;

/// What one turn of the loop over operands did.
#[derive(Clone, Copy)]
pub(crate) enum OperandTurn {
    /// The file of the next one was opened.
    Opened,
    /// An automaton of the open file was taken as the operand.
    Taken,
    /// An abandoned automaton was skipped.
    Skipped,
    /// All operands are read.
    Done,
}

impl Session {
    /// Reads operands until all are read, or an abandoned automaton was skipped.
    pub(super) fn read_operands<I: Inputs>(
        &mut self,
        alloc: Global,
        inputs: &mut I,
    ) -> Result<Prep, RunFault>
        requires spent { self.old.lexer.spent ≡ false }
        requires held { self.old.lexer.held ≡ None }
        requires stage { self.old.stage ≡ Stage.Over }
        requires room { self.old.is_open ≡ true → length self.old.operands < length (operands self.old.plan) }
        requires tried { self.old.tried ≡ length self.old.operands + open_count self.old.is_open }
        requires names { All I.may_open (operands self.old.plan) }
        ensures prepares { Prepares result self.old self.new (I.seen inputs.old) (I.seen inputs.new) }
        ensures plan { self.new.plan ≡ self.old.plan }
        ensures most { self.new.lexer.most ≡ self.old.lexer.most }
        ensures opened { self.new.opened ≡ self.old.opened }
        ensures kept { self.new.kept ≡ self.old.kept }
        ensures stage { self.new.stage ≡ Stage.Over }
        ensures closed { IfOk result (λ p. p ≡ prep.Ready → self.new.is_open ≡ false) }
        ensures spent { OnOk result (self.new.lexer.spent ≡ false) }
        ensures held { OnOk result (self.new.lexer.held ≡ None) }
        ensures room { OnOk result (self.new.is_open ≡ true → length self.new.operands < length (operands self.new.plan)) }
        ensures tried { OnOk result (self.new.tried ≡ length self.new.operands + open_count self.new.is_open) }
    {
        'operands: loop {
            match self.operand_turn(alloc, inputs)? {
                OperandTurn::Opened => {}
                OperandTurn::Taken => {}
                OperandTurn::Skipped => return Ok(Prep::Skipped),
                OperandTurn::Done => return Ok(Prep::Ready),
            }
        }
    }

    /// One turn: opens the file of the next operand, or reads the next automaton of the open one.
    fn operand_turn<I: Inputs>(
        &mut self,
        alloc: Global,
        inputs: &mut I,
    ) -> Result<OperandTurn, RunFault>
        requires spent { self.old.lexer.spent ≡ false }
        requires held { self.old.lexer.held ≡ None }
        requires stage { self.old.stage ≡ Stage.Over }
        requires room { self.old.is_open ≡ true → length self.old.operands < length (operands self.old.plan) }
        requires tried { self.old.tried ≡ length self.old.operands + open_count self.old.is_open }
        requires names { All I.may_open (operands self.old.plan) }
        ensures turns { TurnsOperands result self.old self.new (I.seen inputs.old) (I.seen inputs.new) }
        ensures spent { OnOk result (self.new.lexer.spent ≡ false) }
        ensures held { OnOk result (self.new.lexer.held ≡ None) }
        ensures room { OnOk result (self.new.is_open ≡ true → length self.new.operands < length (operands self.new.plan)) }
        ensures tried { OnOk result (self.new.tried ≡ length self.new.operands + open_count self.new.is_open) }
    {
        if self.is_open {
            self.take_operand(alloc, inputs)
        } else {
            self.open_operand(inputs)
        }
    }

    /// Opens the file of the next operand, if there is one.
    fn open_operand<I: Inputs>(&mut self, inputs: &mut I) -> Result<OperandTurn, RunFault>
        requires closed { self.old.is_open ≡ false }
        requires spent { self.old.lexer.spent ≡ false }
        requires held { self.old.lexer.held ≡ None }
        requires stage { self.old.stage ≡ Stage.Over }
        requires tried { self.old.tried ≡ length self.old.operands + open_count self.old.is_open }
        requires names { All I.may_open (operands self.old.plan) }
        ensures turns { TurnsOperands result self.old self.new (I.seen inputs.old) (I.seen inputs.new) }
        ensures spent { OnOk result (self.new.lexer.spent ≡ false) }
        ensures held { OnOk result (self.new.lexer.held ≡ None) }
        ensures room { OnOk result (self.new.is_open ≡ true → length self.new.operands < length (operands self.new.plan)) }
        ensures tried { OnOk result (self.new.tried ≡ length self.new.operands + open_count self.new.is_open) }
    {
        if self.operands.len() == operand_count(&self.plan) {
            return Ok(OperandTurn::Done);
        }
        self.tried = self.operands.len() as u128 + 1;
        self.lexer.begin();
        inputs.open(operand_file(&self.plan, self.operands.len()))?;
        self.is_open = true;
        Ok(OperandTurn::Opened)
    }

    /// Takes the next automaton of the open file as the operand. The rest of the file is left unread.
    fn take_operand<I: Inputs>(
        &mut self,
        alloc: Global,
        inputs: &mut I,
    ) -> Result<OperandTurn, RunFault>
        requires is_open { self.old.is_open ≡ true }
        requires spent { self.old.lexer.spent ≡ false }
        requires held { self.old.lexer.held ≡ None }
        requires stage { self.old.stage ≡ Stage.Over }
        requires room { length self.old.operands < length (operands self.old.plan) }
        requires tried { self.old.tried ≡ length self.old.operands + open_count self.old.is_open }
        ensures turns { TurnsOperands result self.old self.new (I.seen inputs.old) (I.seen inputs.new) }
        ensures spent { OnOk result (self.new.lexer.spent ≡ false) }
        ensures held { OnOk result (self.new.lexer.held ≡ None) }
        ensures room { OnOk result (self.new.is_open ≡ true → length self.new.operands < length (operands self.new.plan)) }
        ensures tried { OnOk result (self.new.tried ≡ length self.new.operands + open_count self.new.is_open) }
    {
        match read_raw(alloc, &mut self.lexer, inputs)? {
            Front::Blank => Err(RunFault::Truncated),
            Front::Aborted => {
                self.skipped += 1;
                Ok(OperandTurn::Skipped)
            }
            Front::Whole(raw) => {
                let read = automaton_taken(alloc, raw)?;
                self.operands.push(read.automaton)?;
                self.is_open = false;
                Ok(OperandTurn::Taken)
            }
        }
    }
}
