//! The parser of a pattern, which takes one token at a time.

ghost use Rattle.std.specs.Prelude.{◌≡◌, true, ◌<◌, ◌^◌, [], length, IfOk};
ghost use Rattle.word_syntax.specs.inner.Machine as machine;

use crate::LabelList;
use crate::letter::LetterReader;
use crate::stage::Stage;
use crate::token::Token;
use aut_base::{Memory, Names};
use std::alloc::Global;

/// A pattern as far as it is read.
#[derive(Drop)]
pub(crate) struct WordReader {
    /// The names, in the order in which they first appear.
    pub(crate) names: Names,
    pub(crate) stem: LabelList,
    pub(crate) cycle: LabelList,
    pub(crate) stage: Stage,
    pub(crate) letter: LetterReader,
}

impl WordReader {
    ghost use Rattle.word_syntax.specs.inner.Chains.{TakesToken, state_if, word_state};

    /// Nothing is read yet.
    pub(crate) fn new(alloc: Global) -> WordReader
        ensures state { word_state result ≡ machine.word_start }
        ensures names { result.names ≡ [] }
    {
        WordReader {
            names: Names::new(alloc),
            stem: LabelList::new(alloc),
            cycle: LabelList::new(alloc),
            stage: Stage::Stem,
            letter: LetterReader::new(alloc),
        }
    }

    /// Takes a token, and answers whether it can follow; where it can't, the parser is of no further use.
    pub(crate) fn step(&mut self, alloc: Global, token: Token) -> Result<bool, Memory>
        requires { length self.old.names < 2 ^ 32 }
        ensures { IfOk result (λ taken. TakesToken self.old token (state_if taken self.new)) }
    {
        match token {
            Token::Semicolon => self.end_letter(alloc),
            Token::RightBrace => self.end_word(alloc),
            Token::Cycle => Ok(self.begin_cycle()),
            Token::LeftBrace => Ok(self.open_cycle()),
            _ => self.in_letter(alloc, token),
        }
    }

    // A token of a letter.
    fn in_letter(&mut self, alloc: Global, token: Token) -> Result<bool, Memory>
        requires few { length self.old.names < 2 ^ 32 }
        requires of_letter { machine.is_of_letter token ≡ true }
        ensures { IfOk result (λ taken. TakesToken self.old token (state_if taken self.new)) }
    {
        if !has_letters(self.stage) {
            return Ok(false);
        }
        self.letter.step(alloc, &mut self.names, token)
    }

    // `;`
    fn end_letter(&mut self, alloc: Global) -> Result<bool, Memory>
        ensures { IfOk result (λ taken. TakesToken self.old Token.Semicolon (state_if taken self.new)) }
    {
        match self.stage {
            Stage::Stem => self.letter.end(alloc, &mut self.stem),
            Stage::Cycle => self.letter.end(alloc, &mut self.cycle),
            _ => Ok(false),
        }
    }

    // `}`
    fn end_word(&mut self, alloc: Global) -> Result<bool, Memory>
        ensures { IfOk result (λ taken. TakesToken self.old Token.RightBrace (state_if taken self.new)) }
    {
        match self.stage {
            Stage::Cycle => {
                self.stage = Stage::End;
                self.letter.end(alloc, &mut self.cycle)
            }
            _ => Ok(false),
        }
    }

    // `cycle`
    fn begin_cycle(&mut self) -> bool
        ensures { TakesToken self.old Token.Cycle (state_if result self.new) }
    {
        match self.stage {
            Stage::Stem => {
                self.stage = Stage::Brace;
                self.letter.is_fresh()
            }
            _ => false,
        }
    }

    // `{`
    fn open_cycle(&mut self) -> bool
        ensures { TakesToken self.old Token.LeftBrace (state_if result self.new) }
    {
        match self.stage {
            Stage::Brace => {
                self.stage = Stage::Cycle;
                true
            }
            _ => false,
        }
    }
}

// Whether letters may follow at this stage.
fn has_letters(stage: Stage) -> bool
    ensures { result ≡ machine.has_letters stage }
{
    match stage {
        Stage::Stem | Stage::Cycle => true,
        Stage::Brace | Stage::End => false,
    }
}
