//! States renumbered by their index in a list, the sight: all states that a tree and moves mention, in rising order.

ghost use Rattle.std.specs.Prelude.{◌≡◌, ◌^◌, ◌++◌, ◌<◌, ◌≤◌, ℕ, All, Contains, IfOk, flat_map, length, map};
ghost use Rattle.std.specs.List.Sorted.{IsStrictlyIncreasing};
ghost use Rattle.safra_trees.specs.Events.{IsMoveInRange};
ghost use Rattle.safra_trees.specs.Flat.{at};
ghost use Rattle.safra_trees.specs.inner.Sight.{IsSeen, IsSight, move_by};

use crate::{Move, Moves};
use aut_base::{Memory, Numbers, in_order};
use std::alloc::{AllocError, Global};

/// The sight: these states and the ends of these moves in rising order, each once.
pub(crate) fn in_sight(alloc: Global, states: &[u32], moves: &[Move]) -> Result<Numbers, AllocError>
    ensures { IfOk result (λ sight. IsSight states.now moves.now sight) }
{
    let mut found = Vec::from_slice(alloc, states)?;
    'moves: for one in moves {
        found.push(one.from)?;
        found.push(one.to)?;
    }
    Ok(in_order(Numbers::from_vec(found)))
}

/// The number of states in sight.
pub(crate) fn count_of(sight: &[u32]) -> usize
    requires { IsStrictlyIncreasing sight.now }
    ensures is { result ≡ length sight.now }
    ensures few { result ≤ 2 ^ 32 }
{
    sight.len()
}

/// The index of a state in the sight.
fn place_in(sight: &[u32], state: u32) -> u32
    requires rises { IsStrictlyIncreasing sight.now }
    requires there { Contains sight.now state }
    ensures below { result < length sight.now }
    ensures is { at sight.now result ≡ state }
{
    match sight.binary_search(&state) {
        Ok(place) => place as u32,
        Err(_) => unreachable!(),
    }
}

/// The indices of states in the sight.
pub(crate) fn places_in(
    alloc: Global,
    sight: &[u32],
    states: &[u32],
) -> Result<Vec<u32>, AllocError>
    requires rises { IsStrictlyIncreasing sight.now }
    requires there { All (λ s. Contains sight.now s) states.now }
    ensures below { IfOk result (λ places. All (λ x. x < length sight.now) places.items) }
    ensures are { IfOk result (λ places. map (at sight.now) places.items ≡ states.now) }
{
    let mut places = Vec::with_capacity(alloc, states.len())?;
    'states: for state in states {
        places.push(place_in(sight, *state))?;
    }
    Ok(places)
}

/// The moves with each end replaced by its index in the sight.
pub(crate) fn moves_in(alloc: Global, sight: &[u32], moves: &[Move]) -> Result<Moves, Memory>
    requires rises { IsStrictlyIncreasing sight.now }
    requires there { All (λ e. IsSeen sight.now e) moves.now }
    ensures within { IfOk result (λ found. All (IsMoveInRange (length sight.now)) found) }
    ensures are { IfOk result (λ found. map (move_by (at sight.now)) found ≡ moves.now) }
{
    let mut found = Moves::from_vec(Vec::with_capacity(alloc, moves.len())?);
    'moves: for one in moves {
        found.push(Move {
            from: place_in(sight, one.from),
            to: place_in(sight, one.to),
            accepting: one.accepting,
        })?;
    }
    Ok(found)
}

/// The states of these indices in the sight.
pub(crate) fn states_at(
    alloc: Global,
    sight: &[u32],
    places: &[u32],
) -> Result<Vec<u32>, AllocError>
    requires { All (λ x. x < length sight.now) places.now }
    ensures { IfOk result (λ states. states.items ≡ map (at sight.now) places.now) }
{
    let mut states = Vec::with_capacity(alloc, places.len())?;
    'places: for place in places {
        states.push(sight[*place as usize])?;
    }
    Ok(states)
}
