//! The format of a line of figures.

ghost use Rattle.std.specs.Prelude.{◌≡◌, ◌++◌, ◌∷◌, [], IfSome};
ghost use Rattle.std.specs.Option.{option_map};
ghost use Rattle.filter_plan.specs.Formats.{IsFormat, piece_text};
ghost use Rattle.filter_plan.specs.inner.FormatPieces.{escape, first_piece};

use crate::UsageFault;
use crate::reading::OptionValue;
use aut_base::Seq;
use std::alloc::Global;

/// A piece of a format.
#[derive(Clone, Copy, Debug, PartialEq, Eq)]
pub enum Piece {
    /// This byte.
    Byte(u8),
    /// The number of states that are reached.
    States,
    /// The number of edges of these.
    Edges,
    /// The number of acceptance sets.
    Sets,
    /// A word that is accepted.
    Word,
}

/// The pieces of a format, in order.
pub type StatsText = Seq<Piece>;

impl OptionValue for StatsText {
    ghost is_read = { IsFormat };

    /// The pieces of the format that the text spells.
    fn read(alloc: Global, text: &str) -> Result<StatsText, UsageFault> {
        let mut pieces = StatsText::new(alloc);
        let mut rest = text.as_bytes();
        'pieces: while !rest.is_empty() {
            let Some((piece, after)) = front(rest) else {
                return Err(UsageFault::Usage);
            };
            pieces.push(piece)?;
            rest = after;
        }
        Ok(pieces)
    }
}

/// The first piece, and the rest of the text after it.
fn front(bytes: &[u8]) -> Option<(Piece, &[u8])>
    ensures first { option_map (λ x. (x.0, x.1.now)) result ≡ first_piece bytes.now }
    ensures written { IfSome result (λ x. bytes.now ≡ piece_text x.0 ++ x.1.now) }
{
    match bytes {
        [b'%', letter, rest @ ..] => Some((escape(*letter)?, rest)),
        [] | [b'%'] => None,
        [byte, rest @ ..] => Some((Piece::Byte(*byte), rest)),
    }
}

/// The piece that `%` and this letter spell.
fn escape(letter: u8) -> Option<Piece>
    ensures first { result ≡ escape letter }
    ensures written { IfSome result (λ p. piece_text p ≡ 37 ∷ letter ∷ []) }
{
    match letter {
        b'%' => Some(Piece::Byte(b'%')),
        b's' => Some(Piece::States),
        b'e' => Some(Piece::Edges),
        b'a' => Some(Piece::Sets),
        b'w' => Some(Piece::Word),
        _ => None,
    }
}
