//! Strings in quotes.

ghost use Rattle.std.specs.Prelude.{◌≡◌, ◌+◌, ◌<◌, ◌∷◌, None, OnOk, OnErr};
ghost use Rattle.hoa_lexer.specs.Reading.{held_count, unread, Tells};

use super::Lexer;
use crate::{LexFault, Token};
use aut_base::Text;
use aut_io::Inputs;
use std::alloc::Global;

impl Lexer {
    ghost use Rattle.hoa_lexer.specs.Moves.{stop_of};
    ghost use Rattle.hoa_lexer.specs.inner.Steps.{put, AdvancesLexer, HoldsAfter, ReadsQuoted, ReadsToken};

    /// Replaces the token by a string. Its opening quote is held.
    pub(super) fn string<I: Inputs>(
        &mut self,
        alloc: Global,
        inputs: &mut I,
        token: &mut Token,
    ) -> Result<(), LexFault>
        requires { self.old.held ≡ Some 34 }
        ensures answers { Tells (I.seen inputs.old) (I.seen inputs.new) (λ old new.
            ReadsToken (put result token.new) self.old.offset (34 ∷ old) (unread self.new.held new)) }
        ensures holds { HoldsAfter (put result token.new) self.new.held }
        ensures stays { OnErr result (token.new ≡ token.old) }
        ensures progress { OnOk result (self.old.taken + held_count self.new.held < self.new.taken + held_count self.old.held) }
        ensures advances { AdvancesLexer (stop_of result) self.old self.new (I.seen inputs.old) (I.seen inputs.new) }
    {
        self.held = None;
        let mut text = Text::new(alloc);
        'string: loop {
            match self.quoted_byte(inputs)? {
                Some(byte) => text.push(byte)?,
                None => {
                    *token = Token::Str(text);
                    return Ok(());
                }
            }
        }
    }

    /// The next byte of the string, with escapes resolved, or None at its closing quote.
    fn quoted_byte<I: Inputs>(&mut self, inputs: &mut I) -> Result<Option<u8>, LexFault>
        requires { self.old.held ≡ None }
        ensures answers { Tells (I.seen inputs.old) (I.seen inputs.new) (λ old new.
            ReadsQuoted result old new) }
        ensures held { self.new.held ≡ None }
        ensures progress { OnOk result (self.old.taken + held_count self.new.held < self.new.taken + held_count self.old.held) }
        ensures advances { AdvancesLexer (stop_of result) self.old self.new (I.seen inputs.old) (I.seen inputs.new) }
    {
        match self.fetch(inputs)? {
            Some(b'"') => Ok(None),
            Some(b'\\') => match self.fetch(inputs)? {
                Some(byte) => Ok(Some(byte)),
                None => Err(LexFault::OpenString),
            },
            Some(byte) => Ok(Some(byte)),
            None => Err(LexFault::OpenString),
        }
    }
}
