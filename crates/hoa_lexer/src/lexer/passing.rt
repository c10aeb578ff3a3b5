//! For a caller that finds tokens itself in the bytes at hand (already read into the inputs' buffer): these bytes, and how to
//! skip them.

ghost use Rattle.std.specs.Prelude.{◌≡◌, ◌≢◌, ◌+◌, ◌<◌, ◌≤◌, ◌++◌, [], None, length, take};
ghost use Rattle.hoa_lexer.specs.Moves.{Elsewhere, MovesLexer};
ghost use Rattle.hoa_lexer.specs.Reading.{Tells};

use super::Lexer;
use aut_io::Inputs;

impl Lexer {
    /// The bytes at hand, as far as the limit lets them be taken; none while a byte is held.
    #[inline]
    pub fn ahead<'a, I: Inputs>(&self, inputs: &'a I) -> &'a [u8]
        ensures front { result.now ≡ take (length result.now) (I.at_hand inputs.now) }
        ensures hand { length result.now ≤ length (I.at_hand inputs.now) }
        ensures within { self.now.taken + length result.now ≤ self.now.most }
        ensures unheld { 0 < length result.now → self.now.held ≡ None }
    {
        let ahead = inputs.ahead();
        let most = match self.held {
            Some(_) => 0,
            None => (ahead.len() as u64).min(self.most - self.taken) as usize,
        };
        &ahead[..most]
    }

    /// Takes so many of the bytes at hand, the last of which is a token of one byte.
    #[inline]
    pub fn pass<I: Inputs>(&mut self, inputs: &mut I, count: usize)
        requires some { 0 < count }
        requires hand { count ≤ length (I.at_hand inputs.old) }
        requires within { self.old.taken + count ≤ self.old.most }
        requires held { self.old.held ≡ None }
        ensures passes { Tells (I.seen inputs.old) (I.seen inputs.new) (λ old new. old ≡ take count (I.at_hand inputs.old) ++ new) }
        ensures held { self.new.held ≡ None }
        ensures spent { self.new.spent ≡ self.old.spent }
        ensures offset { self.new.offset + 1 ≡ self.new.since }
        ensures since { self.new.since ≡ self.old.since + count }
        ensures taken { self.new.taken ≡ self.old.taken + count }
        ensures moves { MovesLexer Elsewhere self.old self.new (I.seen inputs.old) (I.seen inputs.new) }
    {
        self.pass_token(inputs, count, 1);
    }

    /// The same, where the last `size` bytes are one token.
    #[inline]
    pub fn pass_token<I: Inputs>(&mut self, inputs: &mut I, count: usize, size: usize)
        requires some { 0 < count }
        requires hand { count ≤ length (I.at_hand inputs.old) }
        requires within { self.old.taken + count ≤ self.old.most }
        requires held { self.old.held ≡ None }
        requires last { size ≤ count }
        ensures passes { Tells (I.seen inputs.old) (I.seen inputs.new) (λ old new. old ≡ take count (I.at_hand inputs.old) ++ new) }
        ensures held { self.new.held ≡ None }
        ensures spent { self.new.spent ≡ self.old.spent }
        ensures offset { self.new.offset + size ≡ self.new.since }
        ensures since { self.new.since ≡ self.old.since + count }
        ensures taken { self.new.taken ≡ self.old.taken + count }
        ensures moves { MovesLexer Elsewhere self.old self.new (I.seen inputs.old) (I.seen inputs.new) }
    {
        inputs.skip(count);
        self.taken += count as u64;
        self.since += count as u64;
        self.offset = self.since - size as u64;
    }
}
