//! The words in dashes: `--BODY--`, `--END--` and `--ABORT--`.

ghost use Rattle.std.specs.Prelude.{◌≡◌, ◌+◌, ◌<◌, ◌∷◌, None, OnOk, OnErr};
ghost use Rattle.hoa_lexer.specs.Reading.{held_count, unread, Tells};

use super::Lexer;
use crate::{LexFault, Token};
use aut_io::Inputs;

impl Lexer {
    ghost use Rattle.hoa_lexer.specs.Moves.{stop_of};
    ghost use Rattle.hoa_lexer.specs.inner.Steps.{put, AdvancesLexer, HoldsAfter, IsDashed, ReadsToken, ReadsWord};

    /// Replaces the token by `--BODY--`, `--END--` or `--ABORT--`. Its first byte is held.
    pub(super) fn dashes<I: Inputs>(
        &mut self,
        inputs: &mut I,
        token: &mut Token,
    ) -> Result<(), LexFault>
        requires { self.old.held ≡ Some 45 }
        ensures answers { Tells (I.seen inputs.old) (I.seen inputs.new) (λ old new.
            ReadsToken (put result token.new) self.old.offset (45 ∷ old) (unread self.new.held new)) }
        ensures holds { HoldsAfter (put result token.new) self.new.held }
        ensures stays { OnErr result (token.new ≡ token.old) }
        ensures progress { OnOk result (self.old.taken + held_count self.new.held < self.new.taken + held_count self.old.held) }
        ensures advances { AdvancesLexer (stop_of result) self.old self.new (I.seen inputs.old) (I.seen inputs.new) }
    {
        self.held = None;
        match self.fetch(inputs)? {
            Some(b'-') => self.dashed(inputs, token),
            Some(_) => Err(LexFault::BadToken(self.offset)),
            None => Err(LexFault::OpenToken),
        }
    }

    /// The same, where the first two bytes, `--`, were used.
    fn dashed<I: Inputs>(&mut self, inputs: &mut I, token: &mut Token) -> Result<(), LexFault>
        requires { self.old.held ≡ None }
        ensures answers { Tells (I.seen inputs.old) (I.seen inputs.new) (λ old new.
            ReadsToken (put result token.new) self.old.offset (45 ∷ 45 ∷ old) (unread self.new.held new)) }
        ensures holds { HoldsAfter (put result token.new) self.new.held }
        ensures stays { OnErr result (token.new ≡ token.old) }
        ensures progress { OnOk result (self.old.taken + held_count self.new.held < self.new.taken + held_count self.old.held) }
        ensures advances { AdvancesLexer (stop_of result) self.old self.new (I.seen inputs.old) (I.seen inputs.new) }
    {
        match self.fetch(inputs)? {
            Some(b'B') => self.dashed_tail(inputs, token, Token::Body, b'B', b"ODY--"),
            Some(b'E') => self.dashed_tail(inputs, token, Token::End, b'E', b"ND--"),
            Some(b'A') => self.dashed_tail(inputs, token, Token::Abort, b'A', b"BORT--"),
            Some(_) => Err(LexFault::BadToken(self.offset)),
            None => Err(LexFault::OpenToken),
        }
    }

    /// The same, where the first letter was used, too.
    fn dashed_tail<I: Inputs>(
        &mut self,
        inputs: &mut I,
        token: &mut Token,
        dashed: Token,
        letter: u8,
        tail: &[u8],
    ) -> Result<(), LexFault>
        requires word { IsDashed dashed letter tail.now }
        requires held { self.old.held ≡ None }
        ensures answers { Tells (I.seen inputs.old) (I.seen inputs.new) (λ old new.
            ReadsToken (put result token.new) self.old.offset (45 ∷ 45 ∷ letter ∷ old) (unread self.new.held new)) }
        ensures holds { HoldsAfter (put result token.new) self.new.held }
        ensures stays { OnErr result (token.new ≡ token.old) }
        ensures advances { AdvancesLexer (stop_of result) self.old self.new (I.seen inputs.old) (I.seen inputs.new) }
    {
        self.expect(inputs, tail)?;
        *token = dashed;
        Ok(())
    }

    /// Uses the bytes of this word, and fails at the first other byte.
    fn expect<I: Inputs>(&mut self, inputs: &mut I, word: &[u8]) -> Result<(), LexFault>
        requires { self.old.held ≡ None }
        ensures answers { Tells (I.seen inputs.old) (I.seen inputs.new) (λ old new.
            ReadsWord result word.now self.old.offset old new) }
        ensures held { self.new.held ≡ None }
        ensures advances { AdvancesLexer (stop_of result) self.old self.new (I.seen inputs.old) (I.seen inputs.new) }
    {
        'word: for wanted in word {
            match self.fetch(inputs)? {
                Some(byte) => {
                    if byte != *wanted {
                        return Err(LexFault::BadToken(self.offset));
                    }
                }
                None => return Err(LexFault::OpenToken),
            }
        }
        Ok(())
    }
}
