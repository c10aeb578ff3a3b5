//! The step of a tree.

ghost use Rattle.std.specs.Prelude.{◌≡◌, ◌^◌, ◌<◌, ◌≤◌, ℕ, All, Contains, IfOk, IsErrOf, length, map};
ghost use Rattle.std.specs.List.Sorted.{IsStrictlyIncreasing};
ghost use Rattle.aut_base.specs.declared.limit.TheConstants.{MOST_NODES};
ghost use Rattle.safra_trees.specs.Events.{AreStates, IsMoveInRange, event_of};
ghost use Rattle.safra_trees.specs.Flat.{IsSplit, IsStored, at};
ghost use Rattle.safra_trees.specs.Step.{grown, pruned};
ghost use Rattle.safra_trees.specs.Trees.{root_states};
ghost use Rattle.safra_trees.specs.View.{listed_tree, packed_tree, tree_of};
ghost use Rattle.safra_trees.specs.inner.Passes.{ArePasses};
ghost use Rattle.safra_trees.specs.inner.Sight.{node_by};
ghost use Rattle.safra_trees.specs.inner.Slices.{sliced_tree, states_in};

use crate::claims::{claims, places_by_state};
use crate::lists::{TreeLists, TreeSlices};
use crate::order::claiming_order;
use crate::packed::NARROW;
use crate::passes::{
    claiming, least_covered, least_gone, new_names, new_parents, new_places, owners, surviving,
};
use crate::sight::{count_of, in_sight, moves_in, places_in, states_at};
use crate::{Event, Move, Moves, PackedTree, SafraTree, Scratch, TreeFault};
use aut_base::{MOST_NODES, Numbers, Seq, Text};
use std::alloc::{AllocError, Global};
use std::mem;

/// The step of a tree under the moves of a letter: the new tree, and the least names that were red and green. It doesn't
/// depend on how many states the automaton has. But for want of memory, `Nodes` is answered exactly where the new tree has
/// more than `aut_base::MOST_NODES` nodes.
///
/// Memory and, but for the logarithm of a sort, time grow with the number of states of the tree, the number of moves, and
/// the square of the number of nodes; how great the numbers of the states are plays no part.
pub fn step(alloc: Global, tree: &SafraTree, moves: &Moves) -> Result<(SafraTree, Event), TreeFault>
    ensures tree { IfOk result (λ made. (n : ℕ) → AreStates n moves.now (tree_of tree.now) → tree_of made.0 ≡ pruned (grown n moves.now (tree_of tree.now))) }
    ensures states { IfOk result (λ made. (n : ℕ) → AreStates n moves.now (tree_of tree.now) → All (λ s. s < n) (root_states (tree_of made.0))) }
    ensures event { IfOk result (λ made. (n : ℕ) → AreStates n moves.now (tree_of tree.now) → made.1 ≡ event_of n moves.now (tree_of tree.now)) }
    ensures few { IfOk result (λ made. length (tree_of made.0) ≤ MOST_NODES) }
    ensures nodes { IsErrOf result TreeFault.Nodes → (n : ℕ) → AreStates n moves.now (tree_of tree.now) → MOST_NODES < length (pruned (grown n moves.now (tree_of tree.now))) }
{
    let sight = in_sight(alloc, tree.states.as_slice(), moves.as_slice())?;
    let seen = sight.as_slice();
    let small = small_tree(alloc, seen, tree)?;
    let few = moves_in(alloc, seen, moves.as_slice())?;
    let mut room = Scratch::new(alloc);
    let found = stepped(alloc, count_of(seen), &small, &few, &mut room)?;
    let named = named_tree(alloc, seen, &found.0)?;
    Ok((named, found.1))
}

/// The tree with each state replaced by its index in the sight.
fn small_tree(alloc: Global, sight: &[u32], tree: &SafraTree) -> Result<SafraTree, AllocError>
    requires rises { IsStrictlyIncreasing sight.now }
    requires there { All (λ s. Contains sight.now s) (root_states (tree_of tree.now)) }
    ensures below { IfOk result (λ small. All (λ x. x < length sight.now) (root_states (tree_of small))) }
    ensures are { IfOk result (λ small. map (node_by (at sight.now)) (tree_of small) ≡ tree_of tree.now) }
{
    let states = places_in(alloc, sight, tree.states.as_slice())?;
    let parents = Vec::from_slice(alloc, tree.parents.as_slice())?;
    let places = Vec::from_slice(alloc, tree.places.as_slice())?;
    Ok(SafraTree {
        parents: Text::from_vec(parents),
        states: Numbers::from_vec(states),
        places: Text::from_vec(places),
    })
}

/// The tree with each index replaced by the state of this index in the sight.
fn named_tree(alloc: Global, sight: &[u32], small: &SafraTree) -> Result<SafraTree, AllocError>
    requires rises { IsStrictlyIncreasing sight.now }
    requires below { All (λ x. x < length sight.now) (root_states (tree_of small.now)) }
    ensures { IfOk result (λ tree. tree_of tree ≡ map (node_by (at sight.now)) (tree_of small.now)) }
{
    let states = states_at(alloc, sight, small.states.as_slice())?;
    let parents = Vec::from_slice(alloc, small.parents.as_slice())?;
    let places = Vec::from_slice(alloc, small.places.as_slice())?;
    Ok(SafraTree {
        parents: Text::from_vec(parents),
        states: Numbers::from_vec(states),
        places: Text::from_vec(places),
    })
}

/// As `step`, for a caller that takes many steps with one automaton: `states` is the number of its states, and `room` has
/// the working lists.
///
/// Time grows with the number of moves, the number of states of the automaton, and the square of the number of nodes. After
/// a fault the working lists are empty.
pub fn step_in_room(
    alloc: Global,
    states: u32,
    tree: &SafraTree,
    moves: &Moves,
    room: &mut Scratch,
) -> Result<(SafraTree, Event), TreeFault>
    requires states { All (λ s. s < states) (root_states (tree_of tree.now)) }
    requires moves { All (IsMoveInRange states) moves.now }
    ensures tree { IfOk result (λ made. tree_of made.0 ≡ pruned (grown states moves.now (tree_of tree.now))) }
    ensures states { IfOk result (λ made. All (λ s. s < states) (root_states (tree_of made.0))) }
    ensures event { IfOk result (λ made. made.1 ≡ event_of states moves.now (tree_of tree.now)) }
    ensures few { IfOk result (λ made. length (tree_of made.0) ≤ MOST_NODES) }
    ensures nodes { IsErrOf result TreeFault.Nodes → MOST_NODES < length (pruned (grown states moves.now (tree_of tree.now))) }
{
    stepped(alloc, states as usize, tree, moves, room)
}

/// As `step_in_room`, for up to 2^32 states.
fn stepped(
    alloc: Global,
    states: usize,
    tree: &SafraTree,
    moves: &Moves,
    room: &mut Scratch,
) -> Result<(SafraTree, Event), TreeFault>
    requires numbers { states ≤ 2 ^ 32 }
    requires states { All (λ s. s < states) (root_states (tree_of tree.now)) }
    requires moves { All (IsMoveInRange states) moves.now }
    ensures tree { IfOk result (λ made. tree_of made.0 ≡ pruned (grown states moves.now (tree_of tree.now))) }
    ensures states { IfOk result (λ made. All (λ s. s < states) (root_states (tree_of made.0))) }
    ensures event { IfOk result (λ made. made.1 ≡ event_of states moves.now (tree_of tree.now)) }
    ensures few { IfOk result (λ made. length (tree_of made.0) ≤ MOST_NODES) }
    ensures nodes { IsErrOf result TreeFault.Nodes → MOST_NODES < length (pruned (grown states moves.now (tree_of tree.now))) }
{
    let lists = TreeSlices {
        parents: tree.parents.as_slice(),
        low: &[],
        rest: tree.states.as_slice(),
        places: tree.places.as_slice(),
    };
    match step_lists(alloc, 0, states, &lists, moves, room) {
        Ok((new, event)) => Ok((
            SafraTree {
                parents: new.parents,
                states: new.rest,
                places: new.places,
            },
            event,
        )),
        Err(fault) => Err(fault),
    }
}

/// The step of a tree that is stored in fewer bytes, as `step_in_room` takes it.
pub fn step_packed(
    alloc: Global,
    states: u32,
    tree: &PackedTree,
    moves: &Moves,
    room: &mut Scratch,
) -> Result<(PackedTree, Event), TreeFault>
    requires states { All (λ s. s < states) (root_states (packed_tree tree.now)) }
    requires moves { All (IsMoveInRange states) moves.now }
    ensures tree { IfOk result (λ made. packed_tree made.0 ≡ pruned (grown states moves.now (packed_tree tree.now))) }
    ensures states { IfOk result (λ made. All (λ s. s < states) (root_states (packed_tree made.0))) }
    ensures event { IfOk result (λ made. made.1 ≡ event_of states moves.now (packed_tree tree.now)) }
    ensures few { IfOk result (λ made. length (packed_tree made.0) ≤ MOST_NODES) }
    ensures nodes { IsErrOf result TreeFault.Nodes → MOST_NODES < length (pruned (grown states moves.now (packed_tree tree.now))) }
{
    let lists = TreeSlices {
        parents: tree.lists.parents.as_slice(),
        low: tree.lists.low.as_slice(),
        rest: tree.lists.rest.as_slice(),
        places: tree.lists.places.as_slice(),
    };
    match step_lists(alloc, NARROW, states as usize, &lists, moves, room) {
        Ok((lists, event)) => Ok((PackedTree { lists }, event)),
        Err(fault) => Err(fault),
    }
}

/// The step of a tree by its lists. States below `narrow` are stored as two bytes.
fn step_lists(
    alloc: Global,
    narrow: u32,
    states: usize,
    tree: &TreeSlices<'_>,
    moves: &Moves,
    room: &mut Scratch,
) -> Result<(TreeLists, Event), TreeFault>
    requires narrow { narrow ≤ 2 ^ 16 }
    requires numbers { states ≤ 2 ^ 32 }
    requires stored { IsStored tree.now.parents.now (states_in tree.now) tree.now.places.now }
    requires states { All (λ s. s < states) (states_in tree.now) }
    requires moves { All (IsMoveInRange states) moves.now }
    ensures tree { IfOk result (λ made. listed_tree made.0 ≡ pruned (grown states moves.now (sliced_tree tree.now))) }
    ensures states { IfOk result (λ made. All (λ s. s < states) (root_states (listed_tree made.0))) }
    ensures split { IfOk result (λ made. IsSplit narrow made.0.low made.0.rest) }
    ensures event { IfOk result (λ made. made.1 ≡ event_of states moves.now (sliced_tree tree.now)) }
    ensures few { IfOk result (λ made. length (listed_tree made.0) ≤ MOST_NODES) }
    ensures nodes { IsErrOf result TreeFault.Nodes → MOST_NODES < length (pruned (grown states moves.now (sliced_tree tree.now))) }
{
    let lists = mem::replace(room, Scratch::new(alloc));
    let found = passes(states, tree, moves.as_slice(), lists)?;
    let names = new_names(found.ranks, &found.stay)?;
    if names.count > MOST_NODES {
        return Err(TreeFault::Nodes);
    }
    let parents = new_parents(alloc, tree.parents, &found.stay, &names.ranks, names.count)?;
    let made = new_places(alloc, narrow, &found.claims, &found.owners, &names.ranks)?;
    let event = Event {
        red: least_gone(&found.stay, tree.nodes()),
        green: least_covered(&found.stay, &found.own),
    };
    let new = TreeLists {
        parents: Text::from_vec(parents),
        low: Seq::from_vec(made.low),
        rest: Numbers::from_vec(made.rest),
        places: Text::from_vec(made.places),
    };
    *room = Scratch {
        ranks: names.ranks,
        ..found
    };
    Ok((new, event))
}

/// Fills the working lists: which names claim states, which own them, and which survive.
fn passes(
    states: usize,
    tree: &TreeSlices<'_>,
    moves: &[Move],
    room: Scratch,
) -> Result<Scratch, AllocError>
    requires stored { IsStored tree.now.parents.now (states_in tree.now) tree.now.places.now }
    requires states { All (λ s. s < states) (states_in tree.now) }
    requires moves { All (IsMoveInRange states) moves.now }
    ensures { IfOk result (λ found. ArePasses (grown states moves.now (sliced_tree tree.now)) found.claims.items found.own.items found.owners.items found.stay.items) }
{
    let nodes = tree.parents.len() as u32;
    let order = claiming_order(room.order, tree.parents)?;
    let places = places_by_state(room.places, states, nodes, tree)?;
    let claims = claims(room.claims, &order, &places, moves)?;
    let own = claiming(room.own, nodes + nodes, &claims)?;
    let owners = owners(room.owners, tree.parents, &own)?;
    let stay = surviving(room.stay, &owners, &claims)?;
    Ok(Scratch {
        order,
        places,
        claims,
        own,
        owners,
        stay,
        ranks: room.ranks,
    })
}
