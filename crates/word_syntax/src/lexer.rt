//! The lexer: the token at the front of a text.

ghost use Rattle.std.specs.Prelude.{◌≡◌, ◌==◌, ◌<◌, IsTrue, length, ◌≤◌, slice_index, drop, IfOk, IfSome};
ghost use Rattle.word_syntax.specs.Tokens.{is_letter};
ghost use Rattle.word_syntax.specs.inner.Fronts.{bare_token, sign_count, front_token, sign_token, unquoted};

use crate::bytes::{is_letter, words};
use crate::token::Token;
use aut_base::{Memory, Text};
use std::alloc::Global;

/// The token at the front of these bytes, and its length in bytes.
pub(crate) fn front_token(alloc: Global, bytes: &[u8]) -> Result<Option<(Token, usize)>, Memory>
    ensures { IfOk result (λ found. found ≡ front_token bytes.now) }
{
    if bytes.is_empty() {
        return Ok(None);
    }
    let first = bytes[0];
    if is_letter(first) {
        let size = words(bytes);
        let token = bare_token(alloc, &bytes[..size])?;
        return Ok(Some((token, size)));
    }
    match first {
        b'"' => match unquoted(alloc, &bytes[1..])? {
            Some((name, size)) => Ok(Some((Token::Name(name), size + 1))),
            None => Ok(None),
        },
        b'&' => Ok(Some((Token::And, doubled(b'&', bytes)))),
        b'|' => Ok(Some((Token::Or, doubled(b'|', bytes)))),
        _ => match sign_token(first) {
            Some(token) => Ok(Some((token, 1))),
            None => Ok(None),
        },
    }
}

// The token that a bare word is.
fn bare_token(alloc: Global, word: &[u8]) -> Result<Token, Memory>
    ensures { IfOk result (λ token. token ≡ bare_token word.now) }
{
    let name = Text::from_bytes(alloc, word)?;
    if name.is(b"true") {
        Ok(Token::True)
    } else if name.is(b"false") {
        Ok(Token::False)
    } else if name.is(b"cycle") {
        Ok(Token::Cycle)
    } else {
        Ok(Token::Name(name))
    }
}

// The token of one byte.
fn sign_token(byte: u8) -> Option<Token>
    ensures { result ≡ sign_token byte }
{
    match byte {
        b'1' => Some(Token::True),
        b'0' => Some(Token::False),
        b'!' => Some(Token::Not),
        b'(' => Some(Token::LeftParen),
        b')' => Some(Token::RightParen),
        b';' => Some(Token::Semicolon),
        b'{' => Some(Token::LeftBrace),
        b'}' => Some(Token::RightBrace),
        _ => None,
    }
}

// How often the sign occurs at the front, up to twice.
fn doubled(sign: u8, bytes: &[u8]) -> usize
    ensures { result ≡ sign_count sign bytes.now }
{
    if bytes.len() > 1 && bytes[1] == sign {
        2
    } else {
        1
    }
}

// The text of a string whose opening quote is just before these bytes, and how many of them it takes, with the closing quote.
fn unquoted(alloc: Global, bytes: &[u8]) -> Result<Option<(Text, usize)>, Memory>
    ensures value { IfOk result (λ found. found ≡ unquoted bytes.now) }
    ensures within { IfOk result (λ found. IfSome found (λ s. s.1 ≤ length bytes.now)) }
{
    let mut text = Text::new(alloc);
    let mut at = 0;
    'bytes: while at < bytes.len() {
        match bytes[at] {
            b'"' => return Ok(Some((text, at + 1))),
            b'\\' => {
                if at + 1 == bytes.len() {
                    return Ok(None);
                }
                text.push(bytes[at + 1])?;
                at += 2;
            }
            byte => {
                text.push(byte)?;
                at += 1;
            }
        }
    }
    Ok(None)
}
