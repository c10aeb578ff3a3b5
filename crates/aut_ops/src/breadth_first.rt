//! The breadth-first exploration of a product's pairs of states.

ghost use Rattle.std.specs.Prelude.{◌≡◌, ◌+◌, ◌<◌, ◌≤◌, ◌^◌, ◌++◌, ℕ, List, [], IfOk, IsErrOf, OnOk, flat_map, length, map};
ghost use Rattle.aut_core.specs.SymbolicAutomata.{automaton_of};
ghost use Rattle.aut_ops.specs.inner.Parts.{all_pairs, once};
ghost use Rattle.aut_ops.specs.Products.{ArePairs, HasMorePairs, joint_edges, same_pair, start_pairs};
ghost use Rattle.aut_ops.specs.declared.fault.ExploreFault.{ExploreFault};
ghost use Rattle.aut_base.specs.declared.limit.TheConstants.{MOST_PAIRS};
ghost use Rattle.aut_ops.specs.inner.Pairings.{AreBeyond, AreJointEdges, ArePairsListed, ArePlacesOfPairs};
ghost use Rattle.label_guards.specs.Store.{Keeps};

use crate::fault::ExploreFault;
use crate::pairing::Pairing;
use aut_base::Numbers;
use aut_core::Automaton;
use std::alloc::Global;

/// Lists the pairs of starts, and answers their indices.
pub(crate) fn list_starts(
    alloc: Global,
    pairing: &mut Pairing,
    firsts: &Numbers,
    seconds: &Numbers,
) -> Result<Numbers, ExploreFault>
    requires { pairing.old.pairs ≡ [] }
    ensures store { pairing.new.store ≡ pairing.old.store }
    ensures links { pairing.new.links ≡ pairing.old.links }
    ensures pairs { OnOk result (pairing.new.pairs ≡ once same_pair (all_pairs firsts.now seconds.now)) }
    ensures places { IfOk result (λ starts. ArePlacesOfPairs pairing.new.pairs starts (all_pairs firsts.now seconds.now)) }
    ensures few { OnOk result (length pairing.new.pairs ≤ MOST_PAIRS) }
    ensures many { IsErrOf result ExploreFault.Pairs → AreBeyond MOST_PAIRS [] (all_pairs firsts.now seconds.now) }
{
    let mut starts = Numbers::new(alloc);
    'firsts: for first in firsts.as_slice() {
        list_row(pairing, &mut starts, *first, seconds.as_slice())?;
    }
    Ok(starts)
}

/// Lists the pairs of this state with each of the others, and adds their indices.
fn list_row(
    pairing: &mut Pairing,
    starts: &mut Numbers,
    first: u32,
    seconds: &[u32],
) -> Result<(), ExploreFault>
    requires { length pairing.old.pairs ≤ MOST_PAIRS }
    ensures store { pairing.new.store ≡ pairing.old.store }
    ensures links { pairing.new.links ≡ pairing.old.links }
    ensures listed { OnOk result (ArePairsListed pairing.old.pairs pairing.new.pairs starts.old starts.new (map (λ second. (first, second)) seconds.now)) }
    ensures few { OnOk result (length pairing.new.pairs ≤ MOST_PAIRS) }
    ensures many { IsErrOf result ExploreFault.Pairs → AreBeyond MOST_PAIRS pairing.old.pairs (map (λ second. (first, second)) seconds.now) }
{
    'seconds: for second in seconds {
        let place = pairing.number((first, *second))?;
        starts.push(place)?;
    }
    Ok(())
}

/// Expands each listed pair in turn, and so lists all pairs that are reached, with the links between them.
pub(crate) fn explore(
    pairing: &mut Pairing,
    a: &Automaton,
    b: &Automaton,
) -> Result<(), ExploreFault>
    requires names { b.now.names ≡ a.now.names }
    requires first { Keeps a.now.store pairing.old.store }
    requires second { Keeps b.now.store pairing.old.store }
    requires sets { a.now.sets + b.now.sets < 2 ^ 32 }
    requires starts { pairing.old.pairs ≡ once same_pair (start_pairs (automaton_of a.now) (automaton_of b.now)) }
    requires links { pairing.old.links ≡ [] }
    requires few { length pairing.old.pairs ≤ MOST_PAIRS }
    ensures pairs { OnOk result (ArePairs (automaton_of a.now) (automaton_of b.now) pairing.new.pairs) }
    ensures edges { OnOk result (AreJointEdges pairing.new (flat_map (joint_edges (automaton_of a.now) (automaton_of b.now)) pairing.new.pairs)) }
    ensures longer { OnOk result ((rest : List (ℕ × ℕ)) × (pairing.new.pairs ≡ pairing.old.pairs ++ rest)) }
    ensures keeps { OnOk result (Keeps b.now.store pairing.new.store) }
    ensures few { OnOk result (length pairing.new.pairs ≤ MOST_PAIRS) }
    ensures many { IsErrOf result ExploreFault.Pairs → HasMorePairs MOST_PAIRS (automaton_of a.now) (automaton_of b.now) }
{
    a.well_formedness();
    b.well_formedness();
    let mut done = 0;
    'pairs: while done < pairing.len() {
        let (p, q) = pairing.pair_at(done);
        pairing.spread(done as u32, a.links_of(p), b.links_of(q), a.sets())?;
        done += 1;
    }
    Ok(())
}
