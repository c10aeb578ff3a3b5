//! The next token of a text.

ghost use Rattle.std.specs.Prelude.{◌≤◌, length, IfOk};
ghost use Rattle.word_syntax.specs.inner.Nexts.{IsNextAnswer};

use crate::bytes::{blanks, from};
use crate::lexer::front_token;
use crate::token::Token;
use aut_base::Memory;
use std::alloc::Global;

/// What follows in a text, after blanks.
#[derive(Drop)]
pub(crate) enum Next {
    /// A token, the offset of its first byte, and that after its last.
    Token(Token, usize, usize),
    /// No token: at this offset the text ends, or has bytes that are no token.
    Nothing(usize),
}

/// What follows in the text from this offset on.
pub(crate) fn next_token(alloc: Global, bytes: &[u8], at: usize) -> Result<Next, Memory>
    requires { at ≤ length bytes.now }
    ensures { IfOk result (λ next. IsNextAnswer bytes.now at next) }
{
    let start = at + blanks(from(bytes, at));
    match front_token(alloc, from(bytes, start))? {
        Some((token, size)) => Ok(Next::Token(token, start, start + size)),
        None => Ok(Next::Nothing(start)),
    }
}
