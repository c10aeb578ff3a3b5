//! Tokens, and why there may be no next one.

ghost use Rattle.std.specs.Prelude.{◌≡◌};
ghost use Rattle.hoa_lexer.specs.declared.token.LexFault.{LexFault};

use crate::Name;
use aut_base::{Memory, Text};

// Why so: 'An alias token holds its name without the `@`' in docs/DECISIONS.md.
/// A token of HOA v1 (section "Grammar").
#[derive(Debug, Drop)]
pub enum Token {
    /// A header's name, without the colon.
    HeaderName(Name),
    Identifier(Name),
    /// A string, without its quotes and with its escapes resolved.
    Str(Text),
    Int(u32),
    /// An alias, without the `@`.
    Alias(Name),
    Bang,
    Amp,
    Bar,
    LeftParen,
    RightParen,
    LeftBrace,
    RightBrace,
    LeftBracket,
    RightBracket,
    /// `--BODY--`
    Body,
    /// `--END--`
    End,
    /// `--ABORT--`
    Abort,
}

/// Why there is no next token. The lexer isn't called again after one of these.
#[derive(Clone, Copy, Debug, PartialEq, Eq)]
pub enum LexFault {
    // Why so: '`BadToken` is about every continuation' in docs/DECISIONS.md.
    /// No token and no comment begins with the bytes from this offset on, whatever follows them.
    BadToken(u64),
    /// The text ended inside a comment.
    OpenComment,
    /// The text ended inside a string.
    OpenString,
    /// The text ended inside a token that more bytes could extend, or after a single `/`.
    OpenToken,
    /// A read failed.
    Read,
    /// The limit of bytes was reached, and the token needs another one.
    Bytes,
    /// Want of memory.
    Memory,
}

impl From<Memory> for LexFault {
    ghost from_gives = { λ _ fault. fault ≡ LexFault.Memory };

    fn from(_want: Memory) -> LexFault {
        LexFault::Memory
    }
}
