//! A token or a fault of the lexer, in words.

use hoa_lexer::{LexFault, Token};
use row_files::Answer;

/// The kind of a token.
fn kind(token: &Token) -> &[u8] {
    match token {
        Token::HeaderName(_) => b"header",
        Token::Identifier(_) => b"word",
        Token::Str(_) => b"text",
        Token::Int(_) => b"int",
        Token::Alias(_) => b"alias",
        Token::Bang => b"!",
        Token::Amp => b"&",
        Token::Bar => b"|",
        Token::LeftParen => b"(",
        Token::RightParen => b")",
        Token::LeftBrace => b"{",
        Token::RightBrace => b"}",
        Token::LeftBracket => b"[",
        Token::RightBracket => b"]",
        Token::Body => b"BODY",
        Token::End => b"END",
        Token::Abort => b"ABORT",
    }
}

/// The bytes in a token.
fn bytes(token: &Token) -> &[u8] {
    match token {
        Token::HeaderName(name) | Token::Identifier(name) | Token::Alias(name) => name.as_bytes(),
        Token::Str(text) => text.as_bytes(),
        _ => b"",
    }
}

/// Adds a token and its offset.
pub(crate) fn show_token(answer: &mut Answer, token: &Token, offset: u64) {
    answer.add(kind(token));
    answer.add(b"@");
    answer.add_number(offset);
    if let Token::Int(value) = token {
        answer.add(b"=");
        answer.add_number(u64::from(*value));
    }
    let bytes = bytes(token);
    if !bytes.is_empty() {
        answer.add(b"=");
        answer.add(bytes);
    }
}

/// Adds a fault.
pub(crate) fn show_fault(answer: &mut Answer, fault: LexFault) {
    let word: &[u8] = match fault {
        LexFault::BadToken(_) => b"bad@",
        LexFault::OpenComment => b"open comment",
        LexFault::OpenString => b"open string",
        LexFault::OpenToken => b"open token",
        LexFault::Read => b"read",
        LexFault::Bytes => b"bytes",
        LexFault::Memory => b"memory",
    };
    answer.add(word);
    if let LexFault::BadToken(offset) = fault {
        answer.add_number(offset);
    }
}
