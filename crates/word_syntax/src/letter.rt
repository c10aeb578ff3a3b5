//! The parser of a letter's formula, which takes one token at a time, with a stack of the levels of parentheses.

ghost use Rattle.aut_base.specs.declared.limit.TheConstants.{MOST_DEPTH};
ghost use Rattle.std.specs.Prelude.{◌≡◌, true, false, ◌+◌, ◌<◌, ◌≤◌, ◌^◌, length, map, IfOk, OnOk};
ghost use Rattle.aut_base.specs.Label.{label_tree};
ghost use Rattle.word_syntax.specs.inner.Machine as machine;

use crate::LabelList;
use crate::chain::Chain;
use crate::names::place;
use crate::token::Token;
use aut_base::{Label, MOST_DEPTH, Memory, Names};
use std::alloc::Global;
use std::mem;

/// A level: the formula, or a part of it in parentheses, as far as it is read.
pub(crate) struct Level {
    /// How many `(` and `!` are open around it.
    around: u32,
    /// The complete parts of its disjunction.
    ors: Chain,
    /// The complete parts of the conjunction that is being read.
    ands: Chain,
    /// How many `!` were read before the next operand.
    nots: u32,
    ghost within: { around + nots ≤ MOST_DEPTH },
}

/// A letter as far as it is read.
pub(crate) struct LetterReader {
    /// The levels around the innermost one, that one last.
    outer: Vec<Level>,
    level: Level,
    /// Whether an operand has just ended.
    ready: bool,
}

// Written down, so that it is proved once.
impl Drop for Level {
    fn drop(self) {
        let Level {
            around: _,
            ors: _,
            ands: _,
            nots: _,
        } = self;
    }
}

// Written down, so that it is proved once.
impl Drop for LetterReader {
    fn drop(self) {
        let LetterReader {
            outer: _,
            level: _,
            ready: _,
        } = self;
    }
}

impl Level {
    ghost use Rattle.word_syntax.specs.inner.Chains.{level_tree};

    // A level of which nothing is read yet.
    fn new(around: u32) -> Level
        requires { around ≤ MOST_DEPTH }
        ensures { level_tree result ≡ machine.fresh_level around }
    {
        Level {
            around,
            ors: Chain::Nothing,
            ands: Chain::Nothing,
            nots: 0,
        }
    }

    // An operand has ended.
    fn complete(&mut self, alloc: Global, label: Label) -> Result<(), Memory>
        ensures { OnOk result (level_tree self.new ≡ machine.complete_level (level_tree self.old) (label_tree label)) }
    {
        let label = negated(alloc, label, self.nots)?;
        self.ands.add(alloc, label)?;
        self.nots = 0;
        Ok(())
    }

    // The conjunction has ended, and another follows.
    fn or(&mut self, alloc: Global) -> Result<(), Memory>
        ensures { OnOk result (level_tree self.new ≡ machine.or_level (level_tree self.old)) }
    {
        let ands = mem::replace(&mut self.ands, Chain::Nothing);
        self.ors.add(alloc, ands.all())
    }

    // The label of the level, which is complete. The parts go into it.
    fn label(&mut self, alloc: Global) -> Result<Label, Memory>
        ensures { IfOk result (λ label. label_tree label ≡ machine.level_label (level_tree self.old)) }
    {
        self.or(alloc)?;
        Ok(mem::replace(&mut self.ors, Chain::Nothing).one_of())
    }
}

// The label with this many `!` before it.
fn negated(alloc: Global, label: Label, times: u32) -> Result<Label, Memory>
    ensures { IfOk result (λ new. label_tree new ≡ machine.nots_on times (label_tree label)) }
{
    let mut negated = label;
    'nots: for _ in 0..times {
        negated = Label::Not(Box::new(alloc, negated)?);
    }
    Ok(negated)
}

impl LetterReader {
    ghost use Rattle.word_syntax.specs.inner.Chains.{GoesInLetter, letter_state, state_if};

    /// The parser at the beginning of a letter.
    pub(crate) fn new(alloc: Global) -> LetterReader
        ensures { letter_state result ≡ machine.fresh }
    {
        LetterReader {
            outer: Vec::new(alloc),
            level: Level::new(0),
            ready: false,
        }
    }

    /// Takes a token, and answers whether it can follow; where it can't, the parser is of no further use. A name that is new
    /// is added to the names.
    pub(crate) fn step(
        &mut self,
        alloc: Global,
        names: &mut Names,
        token: Token,
    ) -> Result<bool, Memory>
        requires { length names.old < 2 ^ 32 }
        ensures { IfOk result (λ taken. GoesInLetter (letter_state self.old) token names.old names.new (state_if taken (letter_state self.new))) }
    {
        if self.ready {
            self.after_operand(alloc, token)
        } else {
            self.begin_operand(alloc, names, token)
        }
    }

    // Takes a token where an operand has to follow.
    fn begin_operand(
        &mut self,
        alloc: Global,
        names: &mut Names,
        token: Token,
    ) -> Result<bool, Memory>
        requires few { length names.old < 2 ^ 32 }
        requires awaits { self.old.ready ≡ false }
        ensures { IfOk result (λ taken. GoesInLetter (letter_state self.old) token names.old names.new (state_if taken (letter_state self.new))) }
    {
        match token {
            Token::True => self.complete(alloc, Label::True)?,
            Token::False => self.complete(alloc, Label::False)?,
            Token::Name(name) => {
                let place = place(names, name)?;
                self.complete(alloc, Label::Prop(place))?;
            }
            Token::Not => return Ok(self.not()),
            Token::LeftParen => return self.open(),
            _ => return Ok(false),
        }
        Ok(true)
    }

    // Takes a token where an operand has just ended.
    fn after_operand(&mut self, alloc: Global, token: Token) -> Result<bool, Memory>
        requires { self.old.ready ≡ true }
        ensures { IfOk result (λ taken. state_if taken (letter_state self.new) ≡ machine.after_operand (letter_state self.old) token) }
    {
        match token {
            Token::And => self.and(),
            Token::Or => self.or(alloc)?,
            Token::RightParen => return self.close(alloc),
            _ => return Ok(false),
        }
        Ok(true)
    }

    // An operand has ended.
    fn complete(&mut self, alloc: Global, label: Label) -> Result<(), Memory>
        ensures { OnOk result (letter_state self.new ≡ machine.complete (letter_state self.old) (label_tree label)) }
    {
        self.level.complete(alloc, label)?;
        self.ready = true;
        Ok(())
    }

    // `!`
    fn not(&mut self) -> bool
        requires { self.old.ready ≡ false }
        ensures { state_if result (letter_state self.new) ≡ machine.maybe_negated (letter_state self.old) }
    {
        if self.level.around + self.level.nots >= MOST_DEPTH {
            return false;
        }
        self.level.nots += 1;
        true
    }

    // `(`
    fn open(&mut self) -> Result<bool, Memory>
        requires { self.old.ready ≡ false }
        ensures { IfOk result (λ taken. state_if taken (letter_state self.new) ≡ machine.maybe_opened (letter_state self.old)) }
    {
        let around = self.level.around + self.level.nots;
        if around >= MOST_DEPTH {
            return Ok(false);
        }
        let outer = mem::replace(&mut self.level, Level::new(around + 1));
        self.outer.push(outer)?;
        Ok(true)
    }

    // `&`
    fn and(&mut self)
        ensures { letter_state self.new ≡ machine.anded (letter_state self.old) }
    {
        self.ready = false;
    }

    // `|`
    fn or(&mut self, alloc: Global) -> Result<(), Memory>
        ensures { OnOk result (letter_state self.new ≡ machine.ored (letter_state self.old)) }
    {
        self.level.or(alloc)?;
        self.ready = false;
        Ok(())
    }

    // `)`
    fn close(&mut self, alloc: Global) -> Result<bool, Memory>
        ensures { IfOk result (λ taken. state_if taken (letter_state self.new) ≡ machine.close (letter_state self.old)) }
    {
        let Some(level) = self.outer.pop() else {
            return Ok(false);
        };
        let label = self.level.label(alloc)?;
        self.level = level;
        self.complete(alloc, label)?;
        Ok(true)
    }

    /// Adds the letter's formula to these and begins the next letter. Answers whether the letter is complete.
    pub(crate) fn end(&mut self, alloc: Global, labels: &mut LabelList) -> Result<bool, Memory>
        ensures { IfOk result (λ ended. state_if ended (map label_tree labels.new, letter_state self.new) ≡ machine.ended_into (map label_tree labels.old) (letter_state self.old)) }
    {
        if !self.ready || !self.outer.is_empty() {
            return Ok(false);
        }
        labels.push(self.level.label(alloc)?)?;
        self.level = Level::new(0);
        self.ready = false;
        Ok(true)
    }

    /// Whether nothing of the letter is read.
    pub(crate) fn is_fresh(&self) -> bool
        ensures { result ≡ machine.is_fresh (letter_state self.now) }
    {
        !self.ready
            && self.outer.is_empty()
            && self.level.ors.is_empty()
            && self.level.ands.is_empty()
            && self.level.nots == 0
    }
}
