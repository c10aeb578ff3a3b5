//! Reading a pattern, or a single name.

ghost use Rattle.std.specs.Prelude.{◌≡◌, ◌+◌, ◌<◌, ◌≤◌, ◌^◌, [], length, IfOk, MatchOption};
ghost use Rattle.word_syntax.specs.Writing.{AnswersWord, IsNameAtFront, IsStoppedAt, NoNameAtFront};
ghost use Rattle.word_syntax.specs.inner.Chains.{word_state};
ghost use Rattle.word_syntax.specs.inner.Machine.{word_start};
ghost use Rattle.word_syntax.specs.inner.Reading.{IsThrough, StopsOrGoes};

use crate::lexer::front_token;
use crate::next::{Next, next_token};
use crate::stage::Stage;
use crate::token::Token;
use crate::word::WordReader;
use crate::{Pattern, WordFault};
use aut_base::{Memory, Text};
use std::alloc::Global;

/// The pattern that the text writes. `BadWord` is answered exactly where it writes none, with the byte offset of its
/// error.
pub fn read_word(alloc: Global, text: &Text) -> Result<Pattern, WordFault>
    ensures { AnswersWord result text.now }
{
    let bytes = text.as_bytes();
    if bytes.len() > u32::MAX as usize {
        return Err(WordFault::BadWord(0));
    }
    let mut reader = WordReader::new(alloc);
    read_tokens(alloc, bytes, &mut reader)?;
    let WordReader {
        names,
        stem,
        cycle,
        stage,
        letter: _,
    } = reader;
    match stage {
        Stage::End => Ok(Pattern { names, stem, cycle }),
        _ => Err(WordFault::BadWord(bytes.len() as u64)),
    }
}

// Takes all tokens of the text.
fn read_tokens(alloc: Global, bytes: &[u8], reader: &mut WordReader) -> Result<(), WordFault>
    requires short { length bytes.now < 2 ^ 32 }
    requires state { word_state reader.old ≡ word_start }
    requires names { reader.old.names ≡ [] }
    ensures { StopsOrGoes bytes.now reader.new result }
{
    let mut at = 0;
    'tokens: loop {
        match next_token(alloc, bytes, at)? {
            Next::Token(token, start, end) => {
                if !reader.step(alloc, token)? {
                    return Err(WordFault::BadWord(start as u64));
                }
                at = end;
            }
            Next::Nothing(place) => {
                if place < bytes.len() {
                    return Err(WordFault::BadWord(place as u64));
                }
                return Ok(());
            }
        }
    }
}

/// The name that is the token at the first byte of the text, and its length in bytes as it is spelled. `None` is
/// answered exactly where no name begins there.
pub fn read_name(alloc: Global, text: &Text) -> Result<Option<(Text, usize)>, Memory>
    ensures { IfOk result (λ found. MatchOption found (NoNameAtFront text.now) (λ name. IsNameAtFront text.now name.0 name.1)) }
{
    match front_token(alloc, text.as_bytes())? {
        Some((token, size)) => match token {
            Token::Name(name) => Ok(Some((name, size))),
            _ => Ok(None),
        },
        None => Ok(None),
    }
}
