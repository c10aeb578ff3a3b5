//! Trees of `safra_trees` and plain ones, stepped together and compared.

use crate::automata::{Letter, are_within, letter_by_chance, letter_by_digits, letters};
use crate::plain::{PlainStep, PlainTree, bit, names, node, plain_start, plain_step};
use crate::stored::is_stored;
use crate::trees::{are_states, next, one_node};
use row_files::{Count, Fault, Sequence};
use safra_trees::{Event, Moves, SafraTree, Scratch, TreeFault, step};
use std::alloc::Global;

/// An upper bound for the number of trees of three states.
const MOST_TREES: usize = 100;

/// A tree, and the plain one that it should equal.
#[derive(Drop)]
struct Pair {
    tree: SafraTree,
    plain: PlainTree,
}

/// The pairs that were reached, and the moves of a letter.
#[derive(Drop)]
pub(crate) struct Pairs {
    pairs: Vec<Pair>,
    moves: Moves,
    room: Scratch,
}

impl Pairs {
    /// None was reached.
    pub(crate) fn new(alloc: Global) -> Pairs {
        Pairs {
            pairs: Vec::new(alloc),
            moves: Moves::new(alloc),
            room: Scratch::new(alloc),
        }
    }

    /// Steps all trees of so few states under all letters that there can be among them, which covers all steps of all automata of
    /// so many states. Answers also how many trees there are.
    pub(crate) fn all_of(
        &mut self,
        alloc: Global,
        states: u32,
        count: &mut Count,
    ) -> Result<usize, Fault> {
        self.begin(alloc)?;
        for place in 0..MOST_TREES {
            if place >= self.pairs.len() {
                break;
            }
            for number in 0..letters(states) {
                let letter = letter_by_digits(states, number);
                self.take(alloc, states, place, letter, count)?;
                if !self.has_new() {
                    self.pairs.pop();
                }
            }
        }
        Ok(self.pairs.len())
    }

    /// A walk of some steps under random letters, in a random automaton of one to eight states.
    pub(crate) fn walk(
        &mut self,
        alloc: Global,
        sequence: &mut Sequence,
        count: &mut Count,
    ) -> Result<(), Fault> {
        let states = sequence.next(8) + 1;
        let first = letter_by_chance(states, sequence);
        let second = letter_by_chance(states, sequence);
        self.begin(alloc)?;
        for place in 0..50 {
            let letter = if sequence.next(2) == 0 { first } else { second };
            self.take(alloc, states, place, letter, count)?;
        }
        Ok(())
    }

    /// Begins anew with the first pair.
    fn begin(&mut self, alloc: Global) -> Result<(), Fault> {
        self.pairs.clear();
        self.pairs.push(Pair {
            tree: one_node(alloc)?,
            plain: plain_start(),
        })?;
        Ok(())
    }

    /// Steps the pair at an index under a letter, which is counted as a row, and adds what it leads to.
    fn take(
        &mut self,
        alloc: Global,
        states: u32,
        place: usize,
        letter: Letter,
        count: &mut Count,
    ) -> Result<(), Fault> {
        letter.list(&mut self.moves)?;
        let (event, told) = self.step(alloc, states, place)?;
        let agrees = self.agrees(alloc, place, event, &told)?;
        count.add(!agrees);
        Ok(())
    }

    /// Steps the pair at an index by the moves, and adds the new one. Fails where an end of a move is no state.
    fn step(
        &mut self,
        alloc: Global,
        states: u32,
        place: usize,
    ) -> Result<(Event, PlainStep), Fault> {
        let Some(pair) = self.pairs.get(place) else {
            return Err(Fault::Failed);
        };
        let moves = self.moves.as_slice();
        if !are_states(states, pair.tree.root_states()) || !are_within(states, moves) {
            return Err(Fault::Failed);
        }
        let told = plain_step(&pair.plain, moves);
        let (tree, event) = next(alloc, states, &pair.tree, &self.moves, &mut self.room)?;
        let plain = told.tree;
        self.pairs.push(Pair { tree, plain })?;
        Ok((event, told))
    }

    /// Whether the last pair, which a step of that at an index led to, is of equal trees, as the step says.
    fn agrees(
        &self,
        alloc: Global,
        place: usize,
        event: Event,
        told: &PlainStep,
    ) -> Result<bool, Fault> {
        let (Some(before), Some(pair)) = (self.pairs.get(place), self.pairs.last()) else {
            return Err(Fault::Failed);
        };
        let same = event.red == told.red && event.green == told.green;
        if !same || !has_size(&pair.tree, &pair.plain) || !are_alike(&self.pairs, pair) {
            return Ok(false);
        }
        let again = gives_the_same(alloc, &before.tree, &self.moves, &pair.tree, event)?;
        Ok(again && is_stored(alloc, &pair.tree, &pair.plain)?)
    }

    /// Whether the last tree is equal to no other.
    fn has_new(&self) -> bool {
        let Some(pair) = self.pairs.last() else {
            return false;
        };
        let mut equal = 0usize;
        for earlier in &self.pairs {
            if earlier.tree == pair.tree {
                equal = equal.saturating_add(1);
            }
        }
        equal == 1
    }
}

/// Whether the step without a given number of states answers the same.
fn gives_the_same(
    alloc: Global,
    tree: &SafraTree,
    moves: &Moves,
    made: &SafraTree,
    event: Event,
) -> Result<bool, Fault> {
    match step(alloc, tree, moves) {
        Ok((other, told)) => Ok(other == *made && told == event),
        Err(TreeFault::Nodes) => Ok(false),
        Err(TreeFault::Memory) => Err(Fault::Memory),
    }
}

/// Whether there are as many nodes as in the plain tree, and the root has the states of its root.
fn has_size(tree: &SafraTree, plain: &PlainTree) -> bool {
    tree.nodes() == names(plain).count_ones() && has_root(tree.root_states(), node(plain, 0).holds)
}

/// Whether a list in rising order is this set.
fn has_root(states: &[u32], holds: u64) -> bool {
    let mut found = 0u64;
    for state in states {
        found |= bit(*state as usize);
    }
    found == holds && states.len() == holds.count_ones() as usize
}

/// Whether a tree equals exactly those whose plain trees are equal.
fn are_alike(pairs: &[Pair], pair: &Pair) -> bool {
    for other in pairs {
        let same = other.plain == pair.plain;
        if same != (other.tree == pair.tree) || same != other.tree.is(&pair.tree) {
            return false;
        }
    }
    true
}
