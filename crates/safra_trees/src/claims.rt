//! Which nodes claim which states.

ghost use Rattle.std.specs.Prelude.{◌≡◌, ◌+◌, ◌++◌, ◌<◌, ◌≤◌, ℕ, All, IfOk, length};
ghost use Rattle.aut_base.specs.declared.limit.TheConstants.{MOST_NODES};
ghost use Rattle.safra_trees.specs.Events.{IsMoveInRange};
ghost use Rattle.safra_trees.specs.Flat.{at};
ghost use Rattle.safra_trees.specs.inner.Claims.{claim, claimant, first_of, key, owner_in};

use crate::Move;
use crate::lists::TreeSlices;
use std::alloc::AllocError;

/// For each of `count` states its place, the deepest node that holds it; `none` where no node does.
pub(crate) fn places_by_state(
    room: Vec<u32>,
    count: usize,
    none: u32,
    tree: &TreeSlices<'_>,
) -> Result<Vec<u32>, AllocError>
    requires each { length tree.now.places.now ≡ length (tree.now.low.now ++ tree.now.rest.now) }
    requires states { All (λ s. s < count) (tree.now.low.now ++ tree.now.rest.now) }
    requires places { All (λ x. x < none) tree.now.places.now }
    ensures size { IfOk result (λ found. length found.items ≡ count) }
    ensures below { IfOk result (λ found. All (λ x. x ≤ none) found.items) }
    ensures places { IfOk result (λ found. (s : ℕ) → s < count → at found.items s ≡ owner_in none (tree.now.low.now ++ tree.now.rest.now) tree.now.places.now s) }
{
    let mut found = room;
    found.clear();
    found.resize(count, none)?;
    'states: for place in 0..tree.places.len() {
        found[tree.state(place) as usize] = u32::from(tree.places[place]);
    }
    Ok(found)
}

/// For each state the name that claims it, or twice the number of nodes where none does. A move from a state claims its
/// goal for the place of that state, or for the place's fresh child where it is accepting. Of several claims the first in
/// the order counts.
pub(crate) fn claims(
    room: Vec<u32>,
    order: &[u32],
    places: &[u32],
    moves: &[Move],
) -> Result<Vec<u32>, AllocError>
    requires few { length order.now ≤ MOST_NODES }
    requires order { All (λ x. x < MOST_NODES) order.now }
    requires places { All (λ x. x ≤ length order.now) places.now }
    requires moves { All (IsMoveInRange (length places.now)) moves.now }
    ensures size { IfOk result (λ claims. length claims.items ≡ length places.now) }
    ensures below { IfOk result (λ claims. All (λ c. c ≤ length order.now + length order.now) claims.items) }
    ensures claims { IfOk result (λ claims. (s : ℕ) → s < length places.now → at claims.items s ≡ claim order.now (at places.now) s moves.now (length order.now + length order.now)) }
{
    let nodes = order.len() as u32;
    let mut claims = room;
    claims.clear();
    claims.resize(places.len(), nodes + nodes)?;
    'moves: for one in moves {
        let place = places[one.from as usize];
        if place >= nodes {
            continue;
        }
        let goal = one.to as usize;
        claims[goal] = first_of(order, claims[goal], claimant(nodes, place, one));
    }
    Ok(claims)
}

/// The name for which a move from a place claims its goal: the place, or its fresh child where the move is accepting.
fn claimant(nodes: u32, place: u32, one: &Move) -> u32
    requires few { nodes ≤ MOST_NODES }
    requires place { place < nodes }
    ensures { result ≡ claimant nodes place one.now }
{
    if one.accepting { nodes + place } else { place }
}

/// Which of two claims comes first in the order.
fn first_of(order: &[u32], one: u32, other: u32) -> u32
    requires few { length order.now ≤ MOST_NODES }
    requires order { All (λ x. x < MOST_NODES) order.now }
    ensures { result ≡ first_of order.now one other }
{
    if key(order, other) < key(order, one) {
        other
    } else {
        one
    }
}

/// The number of an old or a fresh name in the order, a fresh one right before its parent.
fn key(order: &[u32], name: u32) -> u32
    requires few { length order.now ≤ MOST_NODES }
    requires order { All (λ x. x < MOST_NODES) order.now }
    ensures { result ≡ key order.now name }
{
    let nodes = order.len() as u32;
    if name < nodes {
        return 2 * order[name as usize] + 1;
    }
    if name < nodes + nodes {
        return 2 * order[(name - nodes) as usize];
    }
    nodes + nodes
}
