//! The session: reads operands, and then streams step by step.

ghost use Rattle.std.specs.Prelude.{◌≡◌, ◌+◌, ◌<◌, ◌≤◌, ◌⊎◌, All, None, false, length, map, true};
ghost use Rattle.aut_base.specs.declared.limit.TheConstants.{MOST_BYTES};
ghost use Rattle.aut_core.specs.SymbolicAutomata.{automaton_of};
ghost use Rattle.autfilt_run.specs.Plans.{files_of, plan_streams};
ghost use Rattle.autfilt_run.specs.declared.session.Stage.{Stage};
ghost use Rattle.filter_plan.specs.Words as words;
ghost use Rattle.plan_meaning.specs.Operands.{IsOfReadSize};

mod operand_reading;
mod reading;

use crate::fault::RunFault;
use crate::number::write_line;
use crate::streams::file_name;
use aut_base::{Failed, MOST_BYTES};
use aut_io::{Inputs, Sink};
use filter_plan::Plan;
use hoa_lexer::Lexer;
use plan_meaning::{Automata, Complements};
use std::alloc::Global;

/// What a step did.
#[derive(Clone, Copy, Debug, PartialEq, Eq)]
pub enum Turn {
    /// The next stream was opened.
    Opened,
    /// An automaton was read and kept, and its text was written where one is due.
    Kept,
    /// An automaton was read and dropped.
    Dropped,
    /// An automaton that is abandoned by `--ABORT--` was skipped.
    Skipped,
    /// Only blanks were left of the stream.
    StreamEnd,
    /// As many automata were kept as `-n` asks for, or there is nothing left to read.
    Done,
}

// Why so: '`prepare` answers once for each automaton that is passed over' in docs/DECISIONS.md.
/// How far a call of `prepare` came.
#[derive(Clone, Copy, Debug, PartialEq, Eq)]
pub enum Prep {
    /// All operands are read.
    Ready,
    /// An abandoned automaton was skipped in the file of the next operand; `prepare` is to be called again.
    Skipped,
}

/// Which call is allowed next.
#[derive(Clone, Copy, Debug, PartialEq, Eq)]
pub enum Stage {
    /// `prepare`.
    New,
    /// `step`.
    Prepared,
    /// `finish`.
    Done,
    /// Nothing.
    Over,
}

// Why so: 'A session is seen by its fields, as a lexer is' in docs/DECISIONS.md.
/// Reads automata from streams, one after the other, filters and changes each by a plan, and writes them.
#[derive(Drop)]
pub struct Session {
    plan: Plan,
    lexer: Lexer,
    /// The operands that were read, in the order of their names.
    operands: Automata,
    /// How many streams were opened.
    opened: usize,
    /// How many files were tried, those of operands included. (A sum of two lengths, which 64 bits may not hold.)
    tried: u128,
    is_open: bool,
    kept: u64,
    skipped: u64,
    stage: Stage,
    ghost opened_within: { opened ≤ length (plan_streams plan) },
    ghost tried_within: { tried ≤ length (files_of plan) },
    ghost read_within: { length operands ≤ length (words.operands plan) },
    ghost next_within: { stage ≡ Stage.New → is_open ≡ true → length operands < length (words.operands plan) },
    // While operands are read, the file that was tried last is the open one, or that of the last operand.
    ghost tried_open: { stage ≡ Stage.New → is_open ≡ true → tried ≡ length operands + 1 },
    ghost tried_closed: { stage ≡ Stage.New → is_open ≡ false → tried ≡ length operands },
    ghost sized: { All IsOfReadSize (map automaton_of operands) },
    ghost all_read: { stage ≡ Stage.Prepared → length operands ≡ length (words.operands plan) },
    ghost most_is: { lexer.most ≡ MOST_BYTES },
    // Each automaton that was read took a byte or more.
    ghost counted: { kept + skipped ≤ lexer.taken },
    ghost spent: { stage ≡ Stage.New ⊎ stage ≡ Stage.Prepared → lexer.spent ≡ false },
    ghost held: { stage ≡ Stage.New ⊎ stage ≡ Stage.Prepared → lexer.held ≡ None },
}

impl Session {
    ghost use Rattle.std.specs.Prelude.{◌≢◌, ◌↔◌, [], IfOk, IsErrOf, IsTrue, OnErr};
    ghost use Rattle.autfilt_run.specs.Plans.{count_text, prints_count};
    ghost use Rattle.autfilt_run.specs.Points.{name_in, operands_in};
    ghost use Rattle.autfilt_run.specs.Preparing.{Prepares};
    ghost use Rattle.autfilt_run.specs.Turns.{WritesCount, IsStep, progress};
    ghost use Rattle.autfilt_run.specs.declared.fault.RunFault.TheVariants as run_fault;
    ghost use Rattle.plan_meaning.specs.Complements.{AreComplementsKept};
    ghost use Rattle.autfilt_run.specs.declared.session.Prep.TheVariants as prep;

    /// A session for a plan, which may take at most 2^40 bytes.
    pub fn new(alloc: Global, plan: Plan) -> Session
        ensures plan { result.plan ≡ plan }
        ensures begins { progress result ≡ record { opened = 0; is_open = false; kept = 0; skipped = 0 } }
        ensures operands { result.operands ≡ [] }
        ensures most { result.lexer.most ≡ MOST_BYTES }
        ensures taken { result.lexer.taken ≡ 0 }
        ensures tried { result.tried ≡ 0 }
        ensures stage { result.stage ≡ Stage.New }
    {
        Session {
            plan,
            lexer: Lexer::new(MOST_BYTES),
            operands: Automata::new(alloc),
            opened: 0,
            tried: 0,
            is_open: false,
            kept: 0,
            skipped: 0,
            stage: Stage::New,
        }
    }

    /// Reads the operands of the plan in order, each from its own file: the first automaton that isn't abandoned. Where an
    /// abandoned one is skipped it answers `Skipped`, and is to be called again.
    pub fn prepare<I: Inputs>(&mut self, alloc: Global, inputs: &mut I) -> Result<Prep, RunFault>
        requires stage { self.old.stage ≡ Stage.New }
        requires names { All I.may_open (words.operands self.old.plan) }

        // What was read, and what it changed in the session.
        ensures prepares { Prepares result self.old self.new (I.seen inputs.old) (I.seen inputs.new) }
        ensures plan { self.new.plan ≡ self.old.plan }
        ensures most { self.new.lexer.most ≡ self.old.lexer.most }
        ensures opened { self.new.opened ≡ self.old.opened }
        ensures kept { self.new.kept ≡ self.old.kept }

        // Which call is allowed next.
        ensures ready { IfOk result (λ p. p ≡ prep.Ready → self.new.stage ≡ Stage.Prepared) }
        ensures closed { IfOk result (λ p. p ≡ prep.Ready → self.new.is_open ≡ false) }

        // After `Ready` the name in hand is that of the last operand's file, or empty where there is no operand.
        ensures named { IfOk result (λ p. p ≡ prep.Ready → self.new.tried ≡ length (words.operands self.new.plan)) }
        ensures skipped { IfOk result (λ p. p ≡ prep.Skipped → self.new.stage ≡ Stage.New) }
        ensures over { OnErr result (self.new.stage ≡ Stage.Over) }
    {
        self.stage = Stage::Over;
        match self.read_operands(alloc, inputs)? {
            Prep::Ready => {
                self.stage = Stage::Prepared;
                Ok(Prep::Ready)
            }
            Prep::Skipped => {
                self.stage = Stage::New;
                Ok(Prep::Skipped)
            }
        }
    }

    /// Opens the next stream, or reads the next automaton of the open one, filters it, and writes its text where one is due.
    /// `complements` may hold complements of the operands that were computed before; those that this step computes are added.
    pub fn step<I: Inputs, W: Sink>(
        &mut self,
        alloc: Global,
        complements: &mut Complements,
        inputs: &mut I,
        out: &mut W,
    ) -> Result<Turn, RunFault>
        requires stage { self.old.stage ≡ Stage.Prepared }
        requires names { All I.may_open (plan_streams self.old.plan) }
        requires kept { AreComplementsKept self.old.plan (operands_in self.old) complements.old }

        // What was read and written, and what it changed in the session.
        ensures step { IsStep result self.old self.new (I.seen inputs.old) (I.seen inputs.new) (W.seen out.old) (W.seen out.new) }
        ensures kept { AreComplementsKept self.old.plan (operands_in self.old) complements.new }

        // Which call is allowed next.
        ensures prepared { IfOk result (λ turn. turn ≢ Turn.Done → self.new.stage ≡ Stage.Prepared) }
        ensures done { IfOk result (λ turn. turn ≡ Turn.Done → self.new.stage ≡ Stage.Done) }
        ensures over { OnErr result (self.new.stage ≡ Stage.Over) }
    {
        self.stage = Stage::Over;
        let turn = self.turn(alloc, complements, inputs, out)?;
        self.stage = match turn {
            Turn::Done => Stage::Done,
            _ => Stage::Prepared,
        };
        Ok(turn)
    }

    /// Under `-c`, writes how many automata were kept, and a line feed.
    pub fn finish<W: Sink>(&mut self, out: &mut W) -> Result<(), RunFault>
        requires { self.old.stage ≡ Stage.Done }
        ensures finishes { WritesCount result (count_text self.old.plan self.old.kept) (W.seen out.old) (W.seen out.new) }
        ensures due { IsErrOf result run_fault.WriteFault → prints_count self.old.plan ≡ true }
        ensures stage { self.new.stage ≡ Stage.Over }
        ensures plan { self.new.plan ≡ self.old.plan }
        ensures progress { progress self.new ≡ progress self.old }
        ensures tried { self.new.tried ≡ self.old.tried }
    {
        self.stage = Stage::Over;
        if !self.plan.count || self.plan.quiet {
            return Ok(());
        }
        match write_line(out, self.kept) {
            Ok(()) => Ok(()),
            Err(Failed) => Err(RunFault::WriteFault),
        }
    }

    /// Whether no step is allowed any more: after `Done`, and after a fault.
    pub fn is_over(&self) -> bool
        ensures { IsTrue result ↔ (self.now.stage ≡ Stage.Done ⊎ self.now.stage ≡ Stage.Over) }
    {
        match self.stage {
            Stage::New => false,
            Stage::Prepared => false,
            Stage::Done => true,
            Stage::Over => true,
        }
    }

    /// How many automata were kept.
    pub fn kept(&self) -> u64
        ensures { result ≡ self.now.kept }
    {
        self.kept
    }

    /// How many automata were skipped.
    pub fn skipped(&self) -> u64
        ensures { result ≡ self.now.skipped }
    {
        self.skipped
    }

    // Why so: 'The name in hand is that of the file that was tried last' in docs/DECISIONS.md.
    /// The name of the file that was tried last, operand or stream, or nothing where none was.
    pub fn name_in_hand(&self) -> &[u8]
        ensures { result.now ≡ name_in self.now }
    {
        if self.tried == 0 {
            return b"";
        }
        file_name(&self.plan, self.tried - 1)
    }
}
