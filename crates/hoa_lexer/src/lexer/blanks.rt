//! Blanks between tokens.

ghost use Rattle.std.specs.Prelude.{◌≡◌, ◌≢◌, ◌+◌, ◌-◌, ◌<◌, ◌≤◌, ◌∷◌, ◌&&◌, ◌==◌, length, None, OnOk, IfOk, IfErr, IsErrOf};
ghost use Rattle.hoa_lexer.specs.Reading.{held_count, unread, Tells};

use super::Lexer;
use super::bytes::is_space;
use crate::LexFault;
use aut_io::Inputs;

impl Lexer {
    ghost use Rattle.hoa_lexer.specs.Moves.{stop_of, stop_of_next};
    ghost use Rattle.hoa_lexer.specs.inner.Steps.{AdvancesLexer, BeginsNone, ClosesComment, HoldsRead, IsSolid, SkipsBlanks, SkipsComment, StepsIn};

    /// Skips blanks. Holds the byte after them, or answers None at the end of the text.
    pub(super) fn skip_blanks<I: Inputs>(&mut self, inputs: &mut I) -> Result<Option<u8>, LexFault>
        ensures answers { Tells (I.seen inputs.old) (I.seen inputs.new) (λ old new.
            SkipsBlanks result (self.old.since - held_count self.old.held) (unread self.old.held old) (unread self.new.held new)) }
        ensures held { IfOk result (λ byte. self.new.held ≡ byte) }
        ensures solid { IsSolid result }
        ensures begun { Tells (I.seen inputs.old) (I.seen inputs.new) (λ old new.
            BeginsNone result (unread self.old.held old) (unread self.new.held new)) }
        ensures none_held { IfErr result (λ fault. self.new.held ≡ None) }
        ensures advances { AdvancesLexer (stop_of_next result) self.old self.new (I.seen inputs.old) (I.seen inputs.new) }
    {
        'blanks: loop {
            match self.peek(inputs)? {
                Some(b'/') => self.skip_comment(inputs)?,
                Some(byte) => {
                    if !is_space(byte) {
                        return Ok(Some(byte));
                    }
                    self.held = None;
                }
                None => return Ok(None),
            }
        }
    }

    /// Skips a comment, the first byte of which is held.
    fn skip_comment<I: Inputs>(&mut self, inputs: &mut I) -> Result<(), LexFault>
        requires { self.old.held ≡ Some 47 }
        ensures answers { Tells (I.seen inputs.old) (I.seen inputs.new) (λ old new.
            SkipsComment result (self.old.since - 1) (47 ∷ old) (unread self.new.held new)) }
        ensures progress { OnOk result (self.old.taken + held_count self.new.held < self.new.taken + held_count self.old.held) }
        ensures none_held { IfErr result (λ fault. self.new.held ≡ None) }
        ensures advances { AdvancesLexer (stop_of result) self.old self.new (I.seen inputs.old) (I.seen inputs.new) }
    {
        self.held = None;
        match self.peek(inputs)? {
            Some(b'*') => {
                self.held = None;
                self.close_comment(inputs)
            }
            Some(_) => {
                self.held = None;
                Err(LexFault::BadToken(self.since - 2))
            }
            None => Err(LexFault::OpenToken),
        }
    }

    /// Skips the rest of a comment, the first two bytes of which were used.
    fn close_comment<I: Inputs>(&mut self, inputs: &mut I) -> Result<(), LexFault>
        requires room { 1 < self.old.taken }
        requires held { self.old.held ≡ None }
        ensures answers { Tells (I.seen inputs.old) (I.seen inputs.new) (λ old new.
            ClosesComment result old (unread self.new.held new)) }
        ensures none_held { IfErr result (λ fault. self.new.held ≡ None) }
        ensures advances { AdvancesLexer (stop_of result) self.old self.new (I.seen inputs.old) (I.seen inputs.new) }
    {
        let mut depth = 1;
        'comment: while depth > 0 {
            depth = self.step_in(inputs, depth)?;
        }
        Ok(())
    }

    /// One step inside nested comments of this depth: past a byte, or past the two bytes that open or close one. Answers the
    /// new depth.
    fn step_in<I: Inputs>(&mut self, inputs: &mut I, depth: u64) -> Result<u64, LexFault>
        requires room { depth + held_count self.old.held < self.old.taken }
        requires inside { 0 < depth }
        ensures answers { Tells (I.seen inputs.old) (I.seen inputs.new) (λ old new.
            StepsIn result depth (unread self.old.held old) (unread self.new.held new)) }
        ensures deeper { IfOk result (λ next.
            next + self.old.taken + held_count self.new.held ≤ depth + self.new.taken + held_count self.old.held) }
        ensures progress { OnOk result (self.old.taken + held_count self.new.held < self.new.taken + held_count self.old.held) }
        ensures none_held { IfErr result (λ fault. self.new.held ≡ None) }
        ensures advances { AdvancesLexer (stop_of result) self.old self.new (I.seen inputs.old) (I.seen inputs.new) }
    {
        let Some(first) = self.take(inputs)? else {
            return Err(LexFault::OpenComment);
        };
        let Some(second) = self.peek(inputs)? else {
            return Err(LexFault::OpenComment);
        };
        if closes(first, second) {
            self.held = None;
            return Ok(depth - 1);
        }
        if opens(first, second) {
            self.held = None;
            return Ok(depth + 1);
        }
        Ok(depth)
    }
}

/// Whether two bytes close a comment.
fn closes(first: u8, second: u8) -> bool
    ensures { result ≡ ((first == 42) && (second == 47)) }
{
    first == b'*' && second == b'/'
}

/// Whether two bytes open a comment.
fn opens(first: u8, second: u8) -> bool
    ensures { result ≡ ((first == 47) && (second == 42)) }
{
    first == b'/' && second == b'*'
}
