//! Signs of one byte.

ghost use Rattle.std.specs.Prelude.{MatchOption};
ghost use Rattle.hoa_lexer.specs.declared.token.Token as declared;
ghost use Rattle.hoa_lexer.specs.inner.Steps.{IsSign};

use crate::Token;

/// The sign that a byte is.
pub(super) fn sign(byte: u8) -> Option<Token>
    ensures { MatchOption result ((token : declared.Token) → IsSign token byte → ⊥) (λ token. IsSign token byte) }
{
    match byte {
        b'!' => Some(Token::Bang),
        b'&' => Some(Token::Amp),
        b'|' => Some(Token::Bar),
        b'(' => Some(Token::LeftParen),
        b')' => Some(Token::RightParen),
        b'{' => Some(Token::LeftBrace),
        b'}' => Some(Token::RightBrace),
        b'[' => Some(Token::LeftBracket),
        b']' => Some(Token::RightBracket),
        _ => None,
    }
}
