//! The lexer: its state, and its two calls for the next token.

ghost use Rattle.std.specs.Prelude.{◌≡◌, ◌≢◌, ◌+◌, ◌-◌, ◌<◌, ◌≤◌, ◌∷◌, None, false, is_err, IsSome, IsTrue, IfOk, OnErr, OnOk};
ghost use Rattle.hoa_lexer.specs.Bytes as kinds;
ghost use Rattle.hoa_lexer.specs.Reading.{held_count, renewed, unread, AnswersToken, HoldsPast, PlacesOffset, Stays, Tells};

mod blanks;
mod bytes;
mod dashes;
mod numbers;
mod passing;
mod reading;
mod signs;
mod strings;
mod words;

use self::bytes::{is_digit, is_letter};
use self::signs::sign;
use crate::{LexFault, Token};
use aut_io::Inputs;
use std::alloc::Global;

// Why so: 'A lexer is seen by its fields' in docs/DECISIONS.md.
/// Reads tokens from inputs, and takes at most so many bytes. It holds at most one byte of lookahead.
#[derive(Debug, Drop)]
pub struct Lexer {
    most: u64,
    taken: u64,
    since: u64,
    offset: u64,
    held: Option<u8>,
    spent: bool,
    ghost within: { taken ≤ most },
    ghost since_within: { since ≤ taken },
    ghost held_within: { held_count held ≤ since },
}

impl Lexer {
    ghost use Rattle.hoa_lexer.specs.Moves.{MovesLexer, stop_of, stop_of_next};
    ghost use Rattle.hoa_lexer.specs.inner.Steps.{put, AdvancesLexer, HoldsAfter, ReadsToken};

    /// A lexer that may take this many bytes in its life.
    pub fn new(most: u64) -> Lexer
        ensures most { result.most ≡ most }
        ensures taken { result.taken ≡ 0 }
        ensures since { result.since ≡ 0 }
        ensures offset { result.offset ≡ 0 }
        ensures held { result.held ≡ None }
        ensures spent { result.spent ≡ false }
    {
        Lexer {
            most,
            taken: 0,
            since: 0,
            offset: 0,
            held: None,
            spent: false,
        }
    }

    /// A new text begins: offsets count from here, and no byte is held.
    pub fn begin(&mut self)
        ensures most { self.new.most ≡ self.old.most }
        ensures taken { self.new.taken ≡ self.old.taken }
        ensures since { self.new.since ≡ 0 }
        ensures offset { self.new.offset ≡ 0 }
        ensures held { self.new.held ≡ None }
        ensures spent { self.new.spent ≡ self.old.spent }
    {
        self.since = 0;
        self.offset = 0;
        self.held = None;
    }

    /// How many bytes were taken in the life of the lexer.
    pub fn taken(&self) -> u64
        ensures { result ≡ self.now.taken }
    {
        self.taken
    }

    /// Where the last token began, in bytes from the last `begin`.
    pub fn offset(&self) -> u64
        ensures { result ≡ self.now.offset }
    {
        self.offset
    }

    /// Whether there was a fault. A spent lexer is not asked again.
    pub fn is_spent(&self) -> bool
        ensures { result ≡ self.now.spent }
    {
        self.spent
    }

    /// The next token of the inputs' open text, or None where only blanks were left of it.
    pub fn next<I: Inputs>(
        &mut self,
        alloc: Global,
        inputs: &mut I,
    ) -> Result<Option<Token>, LexFault>
        requires { self.old.spent ≡ false }

        // What the answer means for the bytes that were unread before.
        ensures answers { Tells (I.seen inputs.old) (I.seen inputs.new) (λ old new.
            AnswersToken result (self.old.since - held_count self.old.held) self.new.offset (unread self.old.held old) (unread self.new.held new)) }
        ensures places { Tells (I.seen inputs.old) (I.seen inputs.new) (λ old new.
            PlacesOffset result (self.old.since - held_count self.old.held) self.old.offset self.new.offset (unread self.old.held old) (unread self.new.held new)) }
        ensures holds { HoldsPast result self.new.held }
        ensures spent { self.new.spent ≡ is_err result }

        // A token uses at least one byte, also where the inputs don't tell what is left.
        ensures used { IfOk result (λ token. IsSome token
            → self.old.taken + held_count self.new.held < self.new.taken + held_count self.old.held) }
        ensures moves { MovesLexer (stop_of_next result) self.old self.new (I.seen inputs.old) (I.seen inputs.new) }
    {
        let mut token = Token::End;
        if self.renew(alloc, inputs, &mut token)? {
            return Ok(Some(token));
        }
        Ok(None)
    }

    // Why so: 'A token is put in the place of the one before' in docs/DECISIONS.md.
    /// Replaces the token by the next one of the inputs' open text and answers true; or answers false where only blanks were
    /// left. Then, as after a fault, the token stays what it was.
    pub fn renew<I: Inputs>(
        &mut self,
        alloc: Global,
        inputs: &mut I,
        token: &mut Token,
    ) -> Result<bool, LexFault>
        requires { self.old.spent ≡ false }

        // The same as `next` answers.
        ensures answers { Tells (I.seen inputs.old) (I.seen inputs.new) (λ old new.
            AnswersToken (renewed result token.new) (self.old.since - held_count self.old.held) self.new.offset (unread self.old.held old) (unread self.new.held new)) }
        ensures places { Tells (I.seen inputs.old) (I.seen inputs.new) (λ old new.
            PlacesOffset (renewed result token.new) (self.old.since - held_count self.old.held) self.old.offset self.new.offset (unread self.old.held old) (unread self.new.held new)) }
        ensures holds { HoldsPast (renewed result token.new) self.new.held }
        ensures spent { self.new.spent ≡ is_err result }
        ensures used { IfOk result (λ more. IsTrue more
            → self.old.taken + held_count self.new.held < self.new.taken + held_count self.old.held) }
        ensures moves { MovesLexer (stop_of_next (renewed result token.new)) self.old self.new (I.seen inputs.old) (I.seen inputs.new) }
        ensures stays { Stays result token.old token.new }
    {
        let answer = self.scan(alloc, inputs, token);
        self.spent = answer.is_err();
        answer
    }

    /// Skips blanks and reads the next token.
    fn scan<I: Inputs>(
        &mut self,
        alloc: Global,
        inputs: &mut I,
        token: &mut Token,
    ) -> Result<bool, LexFault>
        ensures answers { Tells (I.seen inputs.old) (I.seen inputs.new) (λ old new.
            AnswersToken (renewed result token.new) (self.old.since - held_count self.old.held) self.new.offset (unread self.old.held old) (unread self.new.held new)) }
        ensures places { Tells (I.seen inputs.old) (I.seen inputs.new) (λ old new.
            PlacesOffset (renewed result token.new) (self.old.since - held_count self.old.held) self.old.offset self.new.offset (unread self.old.held old) (unread self.new.held new)) }
        ensures holds { HoldsPast (renewed result token.new) self.new.held }
        ensures used { IfOk result (λ more. IsTrue more
            → self.old.taken + held_count self.new.held < self.new.taken + held_count self.old.held) }
        ensures moves { MovesLexer (stop_of_next (renewed result token.new)) self.old self.new (I.seen inputs.old) (I.seen inputs.new) }
        ensures stays { Stays result token.old token.new }
    {
        match self.skip_blanks(inputs)? {
            Some(first) => {
                self.offset = self.since - 1;
                self.token(alloc, inputs, first, token)?;
                Ok(true)
            }
            None => Ok(false),
        }
    }

    /// Replaces the token by the one that begins with the byte that is held, which is no blank's. After a fault the old one
    /// stays.
    fn token<I: Inputs>(
        &mut self,
        alloc: Global,
        inputs: &mut I,
        first: u8,
        token: &mut Token,
    ) -> Result<(), LexFault>
        requires held { self.old.held ≡ Some first }
        requires space { kinds.is_space first ≡ false }
        requires slash { first ≢ 47 }
        ensures answers { Tells (I.seen inputs.old) (I.seen inputs.new) (λ old new.
            ReadsToken (put result token.new) self.old.offset (first ∷ old) (unread self.new.held new)) }
        ensures holds { HoldsAfter (put result token.new) self.new.held }
        ensures stays { OnErr result (token.new ≡ token.old) }
        ensures progress { OnOk result (self.old.taken + held_count self.new.held < self.new.taken + held_count self.old.held) }
        ensures advances { AdvancesLexer (stop_of result) self.old self.new (I.seen inputs.old) (I.seen inputs.new) }
    {
        if is_letter(first) {
            return self.word(alloc, inputs, first, token);
        }
        if is_digit(first) {
            return self.number(inputs, first, token);
        }
        match first {
            b'"' => self.string(alloc, inputs, token),
            b'@' => self.alias(alloc, inputs, token),
            b'-' => self.dashes(inputs, token),
            _ => {
                self.held = None;
                match sign(first) {
                    Some(sign) => {
                        *token = sign;
                        Ok(())
                    }
                    None => Err(LexFault::BadToken(self.offset)),
                }
            }
        }
    }
}
