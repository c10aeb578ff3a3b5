//! The letters of automata, as sets of moves.

ghost use Rattle.std.specs.Prelude.{◌<◌, All, IsTrue};
ghost use Rattle.safra_trees.specs.Events.{IsMoveInRange};

use aut_base::Memory;
use row_files::Sequence;
use safra_trees::{Move, Moves};

/// The moves of a letter among up to eight states, as bits: eight for each state from which they lead.
#[derive(Clone, Copy)]
pub(crate) struct Letter {
    moves: u64,
    accepting: u64,
}

impl Letter {
    /// No moves.
    fn new() -> Letter {
        Letter {
            moves: 0,
            accepting: 0,
        }
    }

    fn add(&mut self, from: u32, to: u32, accepting: bool) {
        let bit = 1u64 << from.saturating_mul(8).saturating_add(to).min(63);
        self.moves |= bit;
        if accepting {
            self.accepting |= bit;
        }
    }

    /// Lists the moves.
    pub(crate) fn list(&self, moves: &mut Moves) -> Result<(), Memory> {
        moves.clear();
        for place in 0..64u32 {
            if self.moves >> place & 1 == 1 {
                let accepting = self.accepting >> place & 1 == 1;
                add(moves, place / 8, place % 8, accepting)?;
            }
        }
        Ok(())
    }
}

/// A letter among so few states, by the digits of a number in base three: each says of a state whether it leads to another
/// not at all, by a move, or by an accepting one.
pub(crate) fn letter_by_digits(states: u32, number: u32) -> Letter {
    let mut rest = number;
    let mut letter = Letter::new();
    for from in 0..states {
        for to in 0..states {
            let digit = rest % 3;
            rest /= 3;
            if digit > 0 {
                letter.add(from, to, digit > 1);
            }
        }
    }
    letter
}

/// How many letters there can be among so few states.
pub(crate) fn letters(states: u32) -> u32 {
    3u32.saturating_pow(states.saturating_mul(states))
}

/// A random letter: each pair of states has a move with probability one third.
pub(crate) fn letter_by_chance(states: u32, sequence: &mut Sequence) -> Letter {
    let mut letter = Letter::new();
    for from in 0..states {
        for to in 0..states {
            if sequence.next(3) == 0 {
                letter.add(from, to, sequence.next(3) == 0);
            }
        }
    }
    letter
}

/// Adds the moves of the letter under which each state stays, and goes on to the next by an accepting move.
pub(crate) fn add_chain(moves: &mut Moves, states: u32) -> Result<(), Memory> {
    for from in 0..states {
        add(moves, from, from, false)?;
        if from + 1 < states {
            add(moves, from, from + 1, true)?;
        }
    }
    Ok(())
}

/// Adds a move.
pub(crate) fn add(moves: &mut Moves, from: u32, to: u32, accepting: bool) -> Result<(), Memory> {
    moves.push(Move {
        from,
        to,
        accepting,
    })
}

/// Whether both ends of all moves are states.
pub(crate) fn are_within(states: u32, moves: &[Move]) -> bool
    ensures { IsTrue result → All (IsMoveInRange states) moves.now }
{
    'moves: for one in moves {
        if one.from >= states || one.to >= states {
            return false;
        }
    }
    true
}
