//! The moves of a letter.

use aut_base::Seq;

/// A move from a state to a state, accepting or not. An edge of the automaton is such a move for each letter that meets it.
#[derive(Clone, Copy, Debug, PartialEq, Eq)]
pub struct Move {
    pub from: u32,
    pub to: u32,
    pub accepting: bool,
}

/// The moves that a letter allows.
pub type Moves = Seq<Move>;
