//! Letters for a long walk.

ghost use Rattle.std.specs.Prelude.{◌<◌, All};
ghost use Rattle.safra_trees.specs.Events.{IsMoveInRange};
ghost use Rattle.tree_rows.specs.declared.long_letters.TheConstants.{STATES};

use crate::automata::{add, add_chain, are_within};
use aut_base::Memory;
use row_files::{Fault, Sequence};
use safra_trees::Moves;
use std::alloc::Global;

/// The number of states.
pub(crate) const STATES: u32 = 64;

/// The number of random letters.
pub(crate) const LETTERS: u32 = 64;

/// The moves of a letter.
#[derive(Drop)]
pub(crate) struct Letter {
    pub(crate) moves: Moves,
    ghost within: { All (IsMoveInRange STATES) moves },
}

/// A random letter, under which most states stay, and a few go elsewhere.
pub(crate) fn random_letter(alloc: Global, sequence: &mut Sequence) -> Result<Letter, Fault> {
    let mut moves = Moves::new(alloc);
    add_by_chance(&mut moves, sequence)?;
    letter_of(moves)
}

/// The letter under which each state stays, and goes on to the next by an accepting move.
pub(crate) fn chain_letter(alloc: Global) -> Result<Letter, Fault> {
    let mut moves = Moves::new(alloc);
    add_chain(&mut moves, STATES)?;
    letter_of(moves)
}

/// The letter of these moves, whose ends are states.
fn letter_of(moves: Moves) -> Result<Letter, Fault> {
    if are_within(STATES, moves.as_slice()) {
        return Ok(Letter { moves });
    }
    Err(Fault::Failed)
}

/// Each state stays with probability 97 in 100, goes on to the next by an accepting move with 5 in 100, and to a random state
/// with 3 in 100.
fn add_by_chance(moves: &mut Moves, sequence: &mut Sequence) -> Result<(), Memory> {
    for from in 0..STATES {
        if sequence.next(100) < 97 {
            add(moves, from, from, false)?;
        }
        if sequence.next(100) < 5 {
            add(moves, from, (from + 1) % STATES, true)?;
        }
        if sequence.next(100) < 3 {
            let to = sequence.next(STATES);
            add(moves, from, to, sequence.next(5) == 0)?;
        }
    }
    Ok(())
}
