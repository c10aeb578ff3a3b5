//! Passes over the old and the fresh names: which survive, and which nodes own the states of the others.

ghost use Rattle.std.specs.Prelude.{◌≡◌, ◌+◌, ◌++◌, ◌∷◌, ◌^◌, ◌<◌, ◌≤◌, ◌&&◌, ℕ, [], All, IfOk, OnOk, cond, filter, length, map, nat_lt, not};
ghost use Rattle.std.specs.List.{list_any, range_with_len};
ghost use Rattle.aut_base.specs.declared.limit.TheConstants.{MOST_NODES};
ghost use Rattle.safra_trees.specs.Flat.{at, is_high, is_low};
ghost use Rattle.safra_trees.specs.inner.Names.{has, names_where, rank};
ghost use Rattle.safra_trees.specs.inner.Claims.{grown_parent};
ghost use Rattle.safra_trees.specs.inner.Passes.{AreOwners, ends_at, flag, is_owner};
ghost use Rattle.safra_trees.specs.Events.{least};

use std::alloc::{AllocError, Global};

/// The parent of an old name, or of a fresh one.
pub(crate) fn grown_parent(parents: &[u8], name: u32) -> u32
    requires few { length parents.now ≤ MOST_NODES }
    requires name { name < length parents.now + length parents.now }
    ensures { result ≡ grown_parent parents.now name }
{
    let nodes = parents.len() as u32;
    if name < nodes {
        u32::from(parents[name as usize])
    } else {
        name - nodes
    }
}

/// For each of `size` names whether it claims a state.
pub(crate) fn claiming(room: Vec<bool>, size: u32, claims: &[u32]) -> Result<Vec<bool>, AllocError>
    ensures size { IfOk result (λ own. length own.items ≡ size) }
    ensures own { IfOk result (λ own. (y : ℕ) → y < size → flag own.items y ≡ has claims.now y) }
{
    let mut own = room;
    own.clear();
    own.resize(size as usize, false)?;
    'claims: for claim in claims {
        if *claim >= size {
            continue;
        }
        own[*claim as usize] = true;
    }
    Ok(own)
}

/// For each name the node that owns its states: the name itself, or the ancestor into which it is merged since that one is
/// covered by its children.
pub(crate) fn owners(room: Vec<u32>, parents: &[u8], own: &[bool]) -> Result<Vec<u32>, AllocError>
    requires few { length parents.now ≤ MOST_NODES }
    requires lower { (x : ℕ) → 0 < x → x < length parents.now → at parents.now x < x }
    requires size { length own.now ≡ length parents.now + length parents.now }
    ensures size { IfOk result (λ owners. length owners.items ≡ length own.now) }
    ensures low { IfOk result (λ owners. (x : ℕ) → x < length own.now → at owners.items x ≤ x) }
    ensures owners { IfOk result (λ owners. AreOwners own.now (grown_parent parents.now) (length own.now) owners.items) }
{
    let mut owners = room;
    owners.clear();
    'names: for name in 0..own.len() as u32 {
        let owner = owner_of(parents, own, &owners, name);
        owners.push(owner)?;
    }
    Ok(owners)
}

/// The owner of a name, from the owners of lower names.
fn owner_of(parents: &[u8], own: &[bool], owners: &[u32], name: u32) -> u32
    requires few { length parents.now ≤ MOST_NODES }
    requires lower { (x : ℕ) → 0 < x → x < length parents.now → at parents.now x < x }
    requires size { length own.now ≡ length parents.now + length parents.now }
    requires name { name < length own.now }
    requires owners { length owners.now ≡ name }
    requires low { (x : ℕ) → x < name → at owners.now x ≤ x }
    ensures owner { result ≡ cond (is_owner own.now (grown_parent parents.now) owners.now name) name (at owners.now (grown_parent parents.now name)) }
    ensures low { result ≤ name }
{
    if name == 0 {
        return name;
    }
    let parent = grown_parent(parents, name);
    let owner = owners[parent as usize];
    if owner == parent && own[parent as usize] {
        return name;
    }
    owner
}

/// For each name whether it survives: whether it owns some claim.
pub(crate) fn surviving(
    room: Vec<bool>,
    owners: &[u32],
    claims: &[u32],
) -> Result<Vec<bool>, AllocError>
    requires few { length owners.now < 2 ^ 32 }
    requires low { All (λ x. x < length owners.now) owners.now }
    ensures size { IfOk result (λ stay. length stay.items ≡ length owners.now) }
    ensures stay { IfOk result (λ stay. (y : ℕ) → y < length owners.now → flag stay.items y ≡ list_any (ends_at owners.now y) claims.now) }
{
    let size = owners.len() as u32;
    let mut stay = room;
    stay.clear();
    stay.resize(owners.len(), false)?;
    'claims: for claim in claims {
        if *claim >= size {
            continue;
        }
        stay[owners[*claim as usize] as usize] = true;
    }
    Ok(stay)
}

/// The new names of the nodes that survive.
#[derive(Drop)]
pub(crate) struct NewNames {
    /// For each name the number of surviving names below it.
    pub(crate) ranks: Vec<u8>,
    /// The number of surviving names.
    pub(crate) count: u32,
}

/// Renumbers the surviving names, without gaps.
pub(crate) fn new_names(room: Vec<u8>, stay: &[bool]) -> Result<NewNames, AllocError>
    requires { length stay.now < 2 ^ 8 }
    ensures ranks { IfOk result (λ made. made.ranks.items ≡ map (rank (flag stay.now)) (range_with_len 0 (length stay.now))) }
    ensures count { IfOk result (λ made. made.count ≡ rank (flag stay.now) (length stay.now)) }
{
    let mut ranks = room;
    ranks.clear();
    let mut count = 0;
    'names: for name in 0..stay.len() {
        ranks.push(count as u8)?;
        if !stay[name] {
            continue;
        }
        count += 1;
    }
    Ok(NewNames { ranks, count })
}

/// The parents of the surviving nodes, by new names. The list has capacity for all `count` of them from the start.
pub(crate) fn new_parents(
    alloc: Global,
    parents: &[u8],
    stay: &[bool],
    ranks: &[u8],
    count: u32,
) -> Result<Vec<u8>, AllocError>
    requires few { length parents.now ≤ MOST_NODES }
    requires lower { (x : ℕ) → x < length parents.now → at parents.now x ≤ x }
    requires size { length stay.now ≡ length parents.now + length parents.now }
    requires ranks { length ranks.now ≡ length stay.now }
    ensures { IfOk result (λ made. made.items ≡ map (λ y. at ranks.now (grown_parent parents.now y)) (names_where (flag stay.now) (length stay.now))) }
{
    let mut made = Vec::with_capacity(alloc, count as usize)?;
    'names: for name in 0..stay.len() {
        if !stay[name] {
            continue;
        }
        made.push(ranks[grown_parent(parents, name as u32) as usize])?;
    }
    Ok(made)
}

/// The least old name that doesn't survive.
pub(crate) fn least_gone(stay: &[bool], nodes: u32) -> Option<u32>
    requires { nodes ≤ length stay.now }
    ensures { result ≡ least (names_where (λ y. not (flag stay.now y)) nodes) }
{
    'names: for name in 0..nodes {
        if !stay[name as usize] {
            return Some(name);
        }
    }
    None
}

/// The least name that survives and claims nothing, since its children cover it.
pub(crate) fn least_covered(stay: &[bool], own: &[bool]) -> Option<u32>
    requires size { length stay.now ≡ length own.now }
    requires fit { length own.now < 2 ^ 32 }
    ensures { result ≡ least (names_where (λ y. flag stay.now y && not (flag own.now y)) (length own.now)) }
{
    'names: for name in 0..own.len() as u32 {
        if stay[name as usize] && !own[name as usize] {
            return Some(name);
        }
    }
    None
}

/// The states that some node holds, and their places by new names.
#[derive(Drop)]
pub(crate) struct NewPlaces {
    /// The states that are stored as two bytes.
    pub(crate) low: Vec<u16>,
    /// The others.
    pub(crate) rest: Vec<u32>,
    /// The places of all, of those in two bytes first.
    pub(crate) places: Vec<u8>,
}

/// The states that some name claims, each with the new name of the node that owns the claim. Those below `narrow` are stored as two
/// bytes.
pub(crate) fn new_places(
    alloc: Global,
    narrow: u32,
    claims: &[u32],
    owners: &[u32],
    ranks: &[u8],
) -> Result<NewPlaces, AllocError>
    requires narrow { narrow ≤ 2 ^ 16 }
    requires few { length claims.now ≤ 2 ^ 32 }
    requires size { length ranks.now ≡ length owners.now }
    requires low { (x : ℕ) → x < length owners.now → at owners.now x ≤ x }
    ensures low { IfOk result (λ made. made.low.items ≡ filter (is_low narrow) (names_where (λ s. nat_lt (at claims.now s) (length owners.now)) (length claims.now))) }
    ensures rest { IfOk result (λ made. made.rest.items ≡ filter (is_high narrow) (names_where (λ s. nat_lt (at claims.now s) (length owners.now)) (length claims.now))) }
    ensures places { IfOk result (λ made. made.places.items
        ≡ map (λ s. at ranks.now (at owners.now (at claims.now s))) (names_where (λ s. nat_lt (at claims.now s) (length owners.now)) (length claims.now))) }
{
    let cut = claims.len().min(narrow as usize);
    let few = claimed(&claims[..cut], owners.len());
    let others = claimed(&claims[cut..], owners.len());
    let mut low = Vec::with_capacity(alloc, few)?;
    let mut rest = Vec::with_capacity(alloc, others)?;
    let mut places = Vec::with_capacity(alloc, few.saturating_add(others))?;
    'states: for state in 0..claims.len() {
        let claim = claims[state] as usize;
        if claim >= owners.len() {
            continue;
        }
        list_state(&mut low, &mut rest, state as u32, narrow)?;
        places.push(ranks[owners[claim] as usize])?;
    }
    Ok(NewPlaces { low, rest, places })
}

/// Adds a state to the list that it belongs to.
pub(crate) fn list_state(
    low: &mut Vec<u16>,
    rest: &mut Vec<u32>,
    state: u32,
    narrow: u32,
) -> Result<(), AllocError>
    requires { narrow ≤ 2 ^ 16 }
    ensures low { OnOk result (low.new.items ≡ low.old.items ++ filter (is_low narrow) (state ∷ [])) }
    ensures rest { OnOk result (rest.new.items ≡ rest.old.items ++ filter (is_high narrow) (state ∷ [])) }
{
    if state < narrow {
        low.push(state as u16)?;
    } else {
        rest.push(state)?;
    }
    Ok(())
}

/// How many states some name claims, which is the capacity of their lists.
fn claimed(claims: &[u32], names: usize) -> usize {
    let mut count = 0usize;
    'states: for claim in claims {
        count = count.saturating_add(usize::from((*claim as usize) < names));
    }
    count
}
