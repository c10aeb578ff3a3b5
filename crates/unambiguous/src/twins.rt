//! Twins: two edges with the same source and the same target, both of which some letter meets.

ghost use Rattle.std.specs.Prelude.{◌≡◌, ◌↔◌, ◌<◌, IfOk, IsTrue, Some, length, slice_get};
ghost use Rattle.label_guards.specs.Store.{Has, Keeps};
ghost use Rattle.unambiguous.specs.Parted.{AreEnds, AreFlagged, HasTwin, do_meet, is_doubled};

use aut_base::Memory;
use aut_core::{Automaton, Link};
use indexmap::IndexSet;
use label_guards::Guards;
use std::alloc::Global;

/// For each state whether twins lead to it from a state whose pair with itself is listed. The conjunctions of their guards
/// are in the store of the square already.
pub(crate) fn twin_ends(
    alloc: Global,
    guards: &mut Guards,
    a: &Automaton,
    pairs: &IndexSet<(u32, u32)>,
) -> Result<Vec<bool>, Memory>
    requires { Keeps a.now.store guards.old }
    ensures keeps { Keeps guards.old guards.new }
    ensures ends { IfOk result (λ flags. AreEnds a.now pairs.now.keys flags.items) }
    ensures flagged { IfOk result (λ flags. AreFlagged a.now pairs.now.keys flags.items (length a.now.links)) }
{
    a.well_formedness();
    let mut flags = vec![in alloc; false; a.states() as usize]?;
    let links = a.links();
    'links: for place in 0..links.len() {
        if !has_twin(guards, a, pairs, place)? {
            continue;
        }
        let link = link_at(links, place);
        flags[link.to as usize] = true;
    }
    Ok(flags)
}

/// Whether the edge of this index has a twin of a higher index. The edges of a state are consecutive in the list.
fn has_twin(
    guards: &mut Guards,
    a: &Automaton,
    pairs: &IndexSet<(u32, u32)>,
    place: usize,
) -> Result<bool, Memory>
    requires place { place < length a.now.links }
    requires keeps { Keeps a.now.store guards.old }
    ensures keeps { Keeps guards.old guards.new }
    ensures twin { IfOk result (λ found. IsTrue found ↔ HasTwin a.now pairs.now.keys place) }
{
    a.well_formedness();
    let links = a.links();
    let link = link_at(links, place);
    if !is_paired(pairs, link.from) {
        return Ok(false);
    }
    'others: for other_place in place + 1..links.len() {
        let other = link_at(links, other_place);
        if other.from != link.from {
            return Ok(false);
        }
        if meet(guards, link, other)? {
            return Ok(true);
        }
    }
    Ok(false)
}

/// The edge of this index.
fn link_at(links: &[Link], place: usize) -> &Link
    requires { place < length links.now }
    ensures { Some result.now ≡ slice_get links.now place }
{
    &links[place]
}

/// Whether the pair of the state with itself is listed.
fn is_paired(pairs: &IndexSet<(u32, u32)>, state: u32) -> bool
    ensures { result ≡ is_doubled pairs.now.keys state }
{
    pairs.contains(&(state, state))
}

/// Whether the edges lead to the same state, and some letter meets both.
fn meet(guards: &mut Guards, link: &Link, other: &Link) -> Result<bool, Memory>
    requires first { Has guards.old link.now.guard }
    requires second { Has guards.old other.now.guard }
    ensures keeps { Keeps guards.old guards.new }
    ensures meet { IfOk result (λ found. found ≡ do_meet guards.old link.now other.now) }
{
    if link.to != other.to {
        return Ok(false);
    }
    let both = guards.and(link.guard, other.guard)?;
    Ok(!guards.is_false(both))
}
