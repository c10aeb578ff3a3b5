//! Reading one byte after the other.

ghost use Rattle.std.specs.Prelude.{◌≡◌, ◌+◌, ◌<◌, None, IfErr, IfOk, IsSome};
ghost use Rattle.hoa_lexer.specs.Reading.{held_count, unread, Tells};

use super::Lexer;
use crate::LexFault;
use aut_io::Inputs;

impl Lexer {
    ghost use Rattle.hoa_lexer.specs.Moves.{stop_of_next};
    ghost use Rattle.hoa_lexer.specs.inner.Steps.{AdvancesLexer, Peeks, HoldsRead, IsReadFault};

    /// The next byte, which is held from then on, or None at the end of the text.
    #[inline(always)]
    pub(super) fn peek<I: Inputs>(&mut self, inputs: &mut I) -> Result<Option<u8>, LexFault>
        ensures answers { Tells (I.seen inputs.old) (I.seen inputs.new) (λ old new.
            Peeks result (unread self.old.held old) new) }
        ensures held { HoldsRead result self.new.held }
        ensures kinds { IfErr result IsReadFault }
        ensures advances { AdvancesLexer (stop_of_next result) self.old self.new (I.seen inputs.old) (I.seen inputs.new) }
    {
        if let Some(byte) = self.held {
            return Ok(Some(byte));
        }
        self.held = self.fetch(inputs)?;
        Ok(self.held)
    }

    /// The next byte, which is consumed, or None at the end of the text.
    #[inline(always)]
    pub(super) fn take<I: Inputs>(&mut self, inputs: &mut I) -> Result<Option<u8>, LexFault>
        ensures answers { Tells (I.seen inputs.old) (I.seen inputs.new) (λ old new.
            Peeks result (unread self.old.held old) new) }
        ensures held { self.new.held ≡ None }
        ensures kinds { IfErr result IsReadFault }
        ensures advances { AdvancesLexer (stop_of_next result) self.old self.new (I.seen inputs.old) (I.seen inputs.new) }
        ensures progress { IfOk result (λ byte. IsSome byte → self.old.taken < self.new.taken + held_count self.old.held) }
    {
        let byte = self.peek(inputs);
        self.held = None;
        byte
    }

    /// The next byte of the inputs, which is consumed, or None at the end of the text. Loops over bytes call this and hold
    /// only the byte that ends them, so that no other byte goes through `held`.
    #[inline(always)]
    pub(super) fn fetch<I: Inputs>(&mut self, inputs: &mut I) -> Result<Option<u8>, LexFault>
        requires { self.old.held ≡ None }
        ensures answers { Tells (I.seen inputs.old) (I.seen inputs.new) (λ old new. Peeks result old new) }
        ensures held { self.new.held ≡ None }
        ensures kinds { IfErr result IsReadFault }
        ensures advances { AdvancesLexer (stop_of_next result) self.old self.new (I.seen inputs.old) (I.seen inputs.new) }
        ensures progress { IfOk result (λ byte. IsSome byte → self.old.taken < self.new.taken) }
    {
        if self.taken == self.most {
            return Err(LexFault::Bytes);
        }
        match inputs.next() {
            Ok(Some(byte)) => {
                self.taken += 1;
                self.since += 1;
                Ok(Some(byte))
            }
            Ok(None) => Ok(None),
            Err(_) => Err(LexFault::Read),
        }
    }
}
