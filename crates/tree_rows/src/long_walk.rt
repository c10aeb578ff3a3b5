//! A long walk from tree to tree, to measure what a step costs.

ghost use Rattle.std.specs.Prelude.{◌<◌, All};
ghost use Rattle.safra_trees.specs.Trees.{root_states};
ghost use Rattle.safra_trees.specs.View.{tree_of};
ghost use Rattle.tree_rows.specs.declared.long_letters.TheConstants.{STATES};

use crate::long_letters::{LETTERS, Letter, STATES, chain_letter, random_letter};
use crate::trees::{are_states, next, one_node};
use row_files::{Fault, Sequence};
use safra_trees::{Event, SafraTree, Scratch};
use std::alloc::Global;

/// The least and the greatest number of nodes of trees that are stepped.
const LEAST_NODES: u32 = 10;

const MOST_NODES: u32 = 40;

/// The number of nodes of the first tree.
const FIRST_NODES: u32 = 31;

/// Greater than any priority.
const NO_PRIORITY: u32 = 1000;

/// A tree over the states of the letters.
#[derive(Drop)]
struct Standing {
    tree: SafraTree,
    ghost states: { All (λ s. s < STATES) (root_states (tree_of tree)) },
}

/// What was seen on a walk.
#[derive(Clone, Copy)]
pub(crate) struct Seen {
    /// The least and the greatest number of nodes of the trees that were stepped.
    pub(crate) least: u32,
    pub(crate) most: u32,
    /// How many steps had a red name, and how many a green one.
    pub(crate) red: u32,
    pub(crate) green: u32,
    /// A checksum of the numbers of nodes and states of all new trees, and of their least red and green names.
    pub(crate) checksum: u32,
}

/// The tree that is stepped next.
#[derive(Drop)]
struct Walk {
    standing: Standing,
    room: Scratch,
}

/// Takes so many steps under random letters, by the random sequence of this seed. A tree with too few or too many nodes isn't
/// stepped; the one before it is stepped again.
pub(crate) fn long_walk(alloc: Global, first: u32, steps: u32) -> Result<Seen, Fault> {
    let mut sequence = Sequence::new(first);
    let mut letters = Vec::new(alloc);
    add_letters(alloc, &mut letters, &mut sequence)?;
    first_walk(alloc)?.go(alloc, &letters, sequence, steps)
}

fn add_letters(
    alloc: Global,
    letters: &mut Vec<Letter>,
    sequence: &mut Sequence,
) -> Result<(), Fault> {
    for _ in 0..LETTERS {
        letters.push(random_letter(alloc, sequence)?)?;
    }
    Ok(())
}

/// Before the first step: the tree is a chain of nodes.
fn first_walk(alloc: Global) -> Result<Walk, Fault> {
    let mut walk = Walk {
        standing: standing_at(one_node(alloc)?)?,
        room: Scratch::new(alloc),
    };
    walk.grow(alloc, &chain_letter(alloc)?)?;
    Ok(walk)
}

/// The tree, whose states are those of the letters.
fn standing_at(tree: SafraTree) -> Result<Standing, Fault> {
    if are_states(STATES, tree.root_states()) {
        return Ok(Standing { tree });
    }
    Err(Fault::Failed)
}

impl Walk {
    /// Makes the first tree.
    fn grow(&mut self, alloc: Global, chain: &Letter) -> Result<(), Fault> {
        for _ in 1..FIRST_NODES {
            self.standing = self.next(alloc, chain)?.0;
        }
        Ok(())
    }

    /// Takes the steps, and answers what was seen.
    fn go(
        &mut self,
        alloc: Global,
        letters: &[Letter],
        sequence: Sequence,
        steps: u32,
    ) -> Result<Seen, Fault> {
        let mut sequence = sequence;
        let mut seen = Seen::new(self.standing.tree.nodes());
        for _ in 0..steps {
            let Some(letter) = letters.get(sequence.next(LETTERS) as usize) else {
                return Err(Fault::Failed);
            };
            self.take(alloc, letter, &mut seen)?;
        }
        Ok(seen)
    }

    /// Takes a step, and counts it.
    fn take(&mut self, alloc: Global, letter: &Letter, seen: &mut Seen) -> Result<(), Fault> {
        let (standing, event) = self.next(alloc, letter)?;
        seen.add(&standing.tree, &event);
        if is_stepped(standing.tree.nodes()) {
            self.standing = standing;
        }
        Ok(())
    }

    /// The step of the tree.
    fn next(&mut self, alloc: Global, letter: &Letter) -> Result<(Standing, Event), Fault> {
        let standing = &self.standing;
        let room = &mut self.room;
        let (tree, event) = next(alloc, STATES, &standing.tree, &letter.moves, room)?;
        Ok((Standing { tree }, event))
    }
}

/// Whether trees of so many nodes are stepped.
fn is_stepped(nodes: u32) -> bool {
    LEAST_NODES <= nodes && nodes <= MOST_NODES
}

/// Piterman's priority: the least of 2f and 2g + 1, for the least red name f and the least green name g; `NO_PRIORITY` where
/// there is neither.
fn priority(event: &Event) -> u32 {
    let red = match event.red {
        Some(name) => name.saturating_mul(2),
        None => NO_PRIORITY,
    };
    let green = match event.green {
        Some(name) => name.saturating_mul(2).saturating_add(1),
        None => NO_PRIORITY,
    };
    red.min(green)
}

impl Seen {
    /// Before the first step, of a tree of so many nodes.
    fn new(nodes: u32) -> Seen {
        Seen {
            least: nodes,
            most: nodes,
            red: 0,
            green: 0,
            checksum: 0,
        }
    }

    /// Counts a step, by the new tree and its event.
    fn add(&mut self, tree: &SafraTree, event: &Event) {
        let nodes = tree.nodes();
        if is_stepped(nodes) {
            self.least = self.least.min(nodes);
            self.most = self.most.max(nodes);
        }
        let priority = priority(event);
        if priority < NO_PRIORITY {
            let counted = if priority % 2 == 0 {
                &mut self.red
            } else {
                &mut self.green
            };
            *counted = counted.saturating_add(1);
        }
        let states = u32::try_from(tree.root_states().len());
        self.mix(nodes);
        self.mix(states.unwrap_or(u32::MAX));
        self.mix(priority);
    }

    fn mix(&mut self, number: u32) {
        self.checksum = self.checksum.wrapping_mul(31).wrapping_add(number);
    }
}
