//! Safra trees as lists of sets, and their step, written out part by part (Safra 1988, Piterman 2007).

use safra_trees::Move;

/// The greatest number of states, and so of the nodes of a tree.
pub(crate) const STATES: usize = 8;

/// The number of names in a step: a fresh child's is `STATES` more than its parent's.
const NAMES: usize = 16;

/// A node: the name of its parent, and the set of its states, as bits. There is none of a name whose set is empty.
#[derive(Clone, Copy, PartialEq, Eq)]
pub(crate) struct PlainNode {
    pub(crate) parent: usize,
    pub(crate) holds: u64,
}

const NO_NODE: PlainNode = PlainNode {
    parent: 0,
    holds: 0,
};

/// The nodes by their names.
pub(crate) type PlainTree = [PlainNode; NAMES];

/// The answer of a step.
#[derive(Clone, Copy)]
pub(crate) struct PlainStep {
    pub(crate) tree: PlainTree,
    pub(crate) red: Option<u32>,
    pub(crate) green: Option<u32>,
}

/// The tree of the first state alone.
pub(crate) fn plain_start() -> PlainTree {
    let mut tree = [NO_NODE; NAMES];
    put(&mut tree, 0, 0, bit(0));
    tree
}

/// The step: successors and fresh children, horizontal merge, vertical merge, and new names.
pub(crate) fn plain_step(tree: &[PlainNode], moves: &[Move]) -> PlainStep {
    let kept = kept(&grown(tree, moves));
    let covered = covered(&kept);
    let stay = stay(&kept, covered);
    PlainStep {
        tree: renamed(&kept, stay),
        red: least(names(tree) & !stay),
        green: least(covered & stay),
    }
}

/// Each node with the successors of its set, and after all of them a youngest child of each with its accepting successors.
fn grown(tree: &[PlainNode], moves: &[Move]) -> PlainTree {
    let mut nodes = [NO_NODE; NAMES];
    for name in 0..STATES {
        let old = node(tree, name);
        put(&mut nodes, name, old.parent, goals(old.holds, moves, false));
        let fresh = name + STATES;
        put(&mut nodes, fresh, name, goals(old.holds, moves, true));
    }
    nodes
}

/// The successors of a set by all moves, or by accepting ones alone.
fn goals(from: u64, moves: &[Move], accepting: bool) -> u64 {
    let mut found = 0;
    for one in moves {
        if is_set(from, one.from as usize) && (one.accepting || !accepting) {
            found |= bit(one.to as usize);
        }
    }
    found
}

/// The horizontal merge: each node with the states that its parent keeps and no older sibling has.
fn kept(nodes: &[PlainNode]) -> PlainTree {
    let mut kept = [NO_NODE; NAMES];
    for name in 0..NAMES {
        let one = node(nodes, name);
        let left = if name == 0 {
            one.holds
        } else {
            node(&kept, one.parent).holds & !in_children(&kept, one.parent)
        };
        put(&mut kept, name, one.parent, one.holds & left);
    }
    kept
}

/// The states that the children of a node have.
fn in_children(nodes: &[PlainNode], parent: usize) -> u64 {
    let mut found = 0;
    for name in 1..NAMES {
        let one = node(nodes, name);
        if one.parent == parent {
            found |= one.holds;
        }
    }
    found
}

/// The names of nodes whose children cover them: each state is in one of them.
fn covered(kept: &[PlainNode]) -> u64 {
    let mut covered = 0;
    for name in 0..NAMES {
        if node(kept, name).holds & !in_children(kept, name) == 0 {
            covered |= bit(name);
        }
    }
    covered
}

/// The vertical merge, which nodes stay: those with states, none of whose ancestors is covered by its children.
fn stay(kept: &[PlainNode], covered: u64) -> u64 {
    let mut stay = 0;
    for name in 0..NAMES {
        let one = node(kept, name);
        let open = name == 0 || is_set(stay & !covered, one.parent);
        if open && one.holds != 0 {
            stay |= bit(name);
        }
    }
    stay
}

/// The nodes that stay, with names closed up.
fn renamed(kept: &[PlainNode], stay: u64) -> PlainTree {
    let mut tree = [NO_NODE; NAMES];
    for name in 0..NAMES {
        if is_set(stay, name) {
            let one = node(kept, name);
            put(
                &mut tree,
                rank(stay, name),
                rank(stay, one.parent),
                one.holds,
            );
        }
    }
    tree
}

/// How many of the names before this one stay.
fn rank(stay: u64, name: usize) -> usize {
    (stay & bit(name).saturating_sub(1)).count_ones() as usize
}

/// The names of a tree.
pub(crate) fn names(tree: &[PlainNode]) -> u64 {
    let mut names = 0;
    for name in 0..NAMES {
        if node(tree, name).holds != 0 {
            names |= bit(name);
        }
    }
    names
}

fn least(names: u64) -> Option<u32> {
    if names == 0 {
        return None;
    }
    Some(names.trailing_zeros())
}

/// The node of this name.
pub(crate) fn node(tree: &[PlainNode], name: usize) -> PlainNode {
    match tree.get(name) {
        Some(node) => *node,
        None => NO_NODE,
    }
}

fn put(tree: &mut [PlainNode], name: usize, parent: usize, holds: u64) {
    if let Some(node) = tree.get_mut(name) {
        *node = PlainNode { parent, holds };
    }
}

pub(crate) fn bit(place: usize) -> u64 {
    1 << place.min(63)
}

pub(crate) fn is_set(flags: u64, place: usize) -> bool {
    flags & bit(place) != 0
}
