//! The tokens of the notation.

use aut_base::Text;

/// A token of the notation of lasso words.
#[derive(Drop)]
pub enum Token {
    /// `1` or `true`
    True,
    /// `0` or `false`
    False,
    /// A name, bare or without its quotes and with its escapes resolved.
    Name(Text),
    /// `!`
    Not,
    /// `&` or `&&`
    And,
    /// `|` or `||`
    Or,
    LeftParen,
    RightParen,
    Semicolon,
    /// `cycle`
    Cycle,
    LeftBrace,
    RightBrace,
}
