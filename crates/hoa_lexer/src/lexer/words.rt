//! Identifiers, names of headers and aliases.

ghost use Rattle.std.specs.Prelude.{◌≡◌, ◌+◌, ◌<◌, ◌∷◌, [], None, true, OnOk, IfOk, IfErr, OnErr};
ghost use Rattle.hoa_lexer.specs.Reading.{held_count, unread, Tells};
ghost use Rattle.hoa_lexer.specs.Bytes as kinds;

use super::Lexer;
use super::bytes::{is_word, word_run};
use crate::{LexFault, Name, Token};
use aut_base::Memory;
use aut_io::Inputs;
use std::alloc::Global;

impl Lexer {
    ghost use Rattle.hoa_lexer.specs.Moves.{Elsewhere, stop_of, stop_of_next};
    ghost use Rattle.hoa_lexer.specs.inner.Steps.{put, AddsWord, AddsWords, AdvancesLexer, HoldsAfter, ReadsToken};

    /// Replaces the token by an identifier or the name of a header. Its first byte is held.
    pub(super) fn word<I: Inputs>(
        &mut self,
        alloc: Global,
        inputs: &mut I,
        first: u8,
        token: &mut Token,
    ) -> Result<(), LexFault>
        requires held { self.old.held ≡ Some first }
        requires letter { kinds.is_letter first ≡ true }
        ensures answers { Tells (I.seen inputs.old) (I.seen inputs.new) (λ old new.
            ReadsToken (put result token.new) self.old.offset (first ∷ old) (unread self.new.held new)) }
        ensures holds { HoldsAfter (put result token.new) self.new.held }
        ensures stays { OnErr result (token.new ≡ token.old) }
        ensures progress { OnOk result (self.old.taken + held_count self.new.held < self.new.taken + held_count self.old.held) }
        ensures advances { AdvancesLexer (stop_of result) self.old self.new (I.seen inputs.old) (I.seen inputs.new) }
    {
        self.held = None;
        let mut name = begun(alloc, first)?;
        match self.word_bytes(inputs, &mut name)? {
            Some(b':') => {
                self.held = None;
                *token = Token::HeaderName(name);
                Ok(())
            }
            Some(_) => {
                *token = Token::Identifier(name);
                Ok(())
            }
            None => Err(LexFault::OpenToken),
        }
    }

    /// Replaces the token by an alias. Its first byte is held.
    pub(super) fn alias<I: Inputs>(
        &mut self,
        alloc: Global,
        inputs: &mut I,
        token: &mut Token,
    ) -> Result<(), LexFault>
        requires { self.old.held ≡ Some 64 }
        ensures answers { Tells (I.seen inputs.old) (I.seen inputs.new) (λ old new.
            ReadsToken (put result token.new) self.old.offset (64 ∷ old) (unread self.new.held new)) }
        ensures holds { HoldsAfter (put result token.new) self.new.held }
        ensures stays { OnErr result (token.new ≡ token.old) }
        ensures progress { OnOk result (self.old.taken + held_count self.new.held < self.new.taken + held_count self.old.held) }
        ensures advances { AdvancesLexer (stop_of result) self.old self.new (I.seen inputs.old) (I.seen inputs.new) }
    {
        self.held = None;
        let mut name = Name::new(alloc);
        match self.word_bytes(inputs, &mut name)? {
            Some(_) => {
                if name.is_empty() {
                    self.held = None;
                    return Err(LexFault::BadToken(self.offset));
                }
                *token = Token::Alias(name);
                Ok(())
            }
            None => Err(LexFault::OpenToken),
        }
    }

    /// Adds all letters, digits and `-` that come next to a name. Holds the byte after them, or answers None at the end of
    /// the text.
    fn word_bytes<I: Inputs>(
        &mut self,
        inputs: &mut I,
        name: &mut Name,
    ) -> Result<Option<u8>, LexFault>
        requires { self.old.held ≡ None }
        ensures answers { Tells (I.seen inputs.old) (I.seen inputs.new) (λ old new.
            AddsWords result name.old name.new old new) }
        ensures held { IfOk result (λ byte. self.new.held ≡ byte) }
        ensures none_held { IfErr result (λ fault. self.new.held ≡ None) }
        ensures advances { AdvancesLexer (stop_of_next result) self.old self.new (I.seen inputs.old) (I.seen inputs.new) }
    {
        'bytes: loop {
            match self.fetch(inputs)? {
                Some(byte) => {
                    if !is_word(byte) {
                        self.held = Some(byte);
                        return Ok(Some(byte));
                    }
                    name.push(byte)?;
                }
                None => return Ok(None),
            }
            self.take_run(inputs, name)?;
        }
    }

    // Why so: 'Words are taken by runs' in docs/DECISIONS.md.
    /// Adds those of the bytes at hand that go on with the name, as many as the limit allows. Where memory is wanting, it
    /// takes none of them.
    fn take_run<I: Inputs>(&mut self, inputs: &mut I, name: &mut Name) -> Result<(), Memory>
        requires { self.old.held ≡ None }
        ensures answers { Tells (I.seen inputs.old) (I.seen inputs.new) (λ old new.
            AddsWord name.old name.new old new) }
        ensures held { self.new.held ≡ None }
        ensures advances { AdvancesLexer Elsewhere self.old self.new (I.seen inputs.old) (I.seen inputs.new) }
    {
        let ahead = inputs.ahead();
        let most = (ahead.len() as u64).min(self.most - self.taken) as usize;
        let run = word_run(&ahead[..most]);
        name.extend(&ahead[..run])?;
        inputs.skip(run);
        self.taken += run as u64;
        self.since += run as u64;
        Ok(())
    }
}

/// A name that begins with this byte.
fn begun(alloc: Global, first: u8) -> Result<Name, Memory>
    ensures { IfOk result (λ name. name ≡ first ∷ []) }
{
    let mut name = Name::new(alloc);
    name.push(first)?;
    Ok(name)
}
