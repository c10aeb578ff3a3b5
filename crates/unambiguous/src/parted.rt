//! The product of an automaton with itself (its square), started in the pairs in which two runs have diverged.

ghost use Rattle.std.specs.Prelude.{◌≡◌, ◌+◌, ◌<◌, ◌≤◌, ◌^◌, ℕ, All, IfOk, IsErrOf, OnOk, Some, length, slice_get};
ghost use Rattle.aut_base.specs.declared.limit.TheConstants.{MOST_PAIRS};
ghost use Rattle.aut_core.specs.SymbolicAutomata.{automaton_of};
ghost use Rattle.aut_ops.specs.Products.{HasMorePairs};
ghost use Rattle.unambiguous.specs.Parted.{ArePartings, IsParted, parts};
ghost use Rattle.unambiguous.specs.declared.fault.SquareFault.{SquareFault};

use crate::fault::SquareFault;
use crate::twins::twin_ends;
use aut_base::{Memory, Numbers};
use aut_core::Automaton;
use aut_ops::square;
use indexmap::IndexSet;
use std::alloc::Global;

/// The product of the automaton with itself, started in the reached pairs in which two runs have diverged: those of
/// different states, and those of a state with itself to which twins lead, two edges with the same source that some letter
/// meets.
pub(crate) fn parted_square(alloc: Global, a: &Automaton) -> Result<Automaton, SquareFault>
    requires sets { a.now.sets + a.now.sets + 1 < 2 ^ 32 }
    ensures parted { IfOk result (λ made. IsParted a.now (automaton_of made)) }
    ensures few { OnOk result (HasMorePairs MOST_PAIRS (automaton_of a.now) (automaton_of a.now) → ⊥) }
    ensures many { IsErrOf result SquareFault.Pairs → HasMorePairs MOST_PAIRS (automaton_of a.now) (automaton_of a.now) }
{
    a.well_formedness();
    let made = square(alloc, a)?;
    let mut guards = made.guards;
    let flags = twin_ends(alloc, &mut guards, a, &made.pairs)?;
    let starts = partings(alloc, &made.pairs, flags.as_slice())?;
    let states = made.pairs.len() as u32;
    Ok(Automaton::from_parts(
        alloc,
        made.names,
        guards,
        states,
        starts,
        made.links,
        made.sets,
        made.formula,
    )?)
}

/// The indices of the pairs of different states, and of those of a flagged state with itself.
fn partings(alloc: Global, pairs: &IndexSet<(u32, u32)>, flags: &[bool]) -> Result<Numbers, Memory>
    requires few { length pairs.now.keys ≤ MOST_PAIRS }
    requires within { All (λ pair. pair.0 < length flags.now) pairs.now.keys }
    ensures { IfOk result (ArePartings flags.now pairs.now.keys (length pairs.now.keys)) }
{
    let mut starts = Numbers::new(alloc);
    'places: for place in 0..pairs.len() {
        if !have_parted(pair_at(pairs, place), flags) {
            continue;
        }
        starts.push(place as u32)?;
    }
    Ok(starts)
}

/// The pair of this index.
fn pair_at(pairs: &IndexSet<(u32, u32)>, place: usize) -> (u32, u32)
    requires { place < length pairs.now.keys }
    ensures { slice_get pairs.now.keys place ≡ Some result }
{
    pairs.as_slice()[place]
}

/// Whether the two states differ, or are the same flagged state.
fn have_parted(pair: (u32, u32), flags: &[bool]) -> bool
    requires { pair.0 < length flags.now }
    ensures { result ≡ parts flags.now pair }
{
    let (first, second) = pair;
    first != second || flags[first as usize]
}
