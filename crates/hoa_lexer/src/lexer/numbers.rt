//! Integers.

ghost use Rattle.std.specs.Prelude.{◌≡◌, ◌+◌, ◌<◌, ◌∷◌, true, OnOk, OnErr};
ghost use Rattle.hoa_lexer.specs.Reading.{held_count, unread, Tells};
ghost use Rattle.hoa_lexer.specs.Bytes as kinds;

use super::Lexer;
use super::bytes::is_digit;
use crate::{LexFault, Token};
use aut_io::Inputs;

impl Lexer {
    ghost use Rattle.hoa_lexer.specs.Moves.{stop_of};
    ghost use Rattle.hoa_lexer.specs.inner.Steps.{put, AdvancesLexer, HoldsAfter, ReadsToken};

    /// Replaces the token by an integer. Its first digit is held. It is refused at the first digit that makes it 2^32 or
    /// more.
    pub(super) fn number<I: Inputs>(
        &mut self,
        inputs: &mut I,
        first: u8,
        token: &mut Token,
    ) -> Result<(), LexFault>
        requires held { self.old.held ≡ Some first }
        requires digit { kinds.is_digit first ≡ true }
        ensures answers { Tells (I.seen inputs.old) (I.seen inputs.new) (λ old new.
            ReadsToken (put result token.new) self.old.offset (first ∷ old) (unread self.new.held new)) }
        ensures holds { HoldsAfter (put result token.new) self.new.held }
        ensures stays { OnErr result (token.new ≡ token.old) }
        ensures progress { OnOk result (self.old.taken + held_count self.new.held < self.new.taken + held_count self.old.held) }
        ensures advances { AdvancesLexer (stop_of result) self.old self.new (I.seen inputs.old) (I.seen inputs.new) }
    {
        self.held = None;
        let mut value = u64::from(first - b'0');
        if value == 0 {
            *token = Token::Int(0);
            return Ok(());
        }
        'digits: loop {
            match self.fetch(inputs)? {
                Some(byte) => {
                    if !is_digit(byte) {
                        self.held = Some(byte);
                        *token = Token::Int(value as u32);
                        return Ok(());
                    }
                    value = 10 * value + u64::from(byte - b'0');
                    if value > u64::from(u32::MAX) {
                        return Err(LexFault::BadToken(self.offset));
                    }
                }
                None => return Err(LexFault::OpenToken),
            }
        }
    }
}
