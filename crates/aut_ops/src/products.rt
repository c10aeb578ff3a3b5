//! Products of two automata.

ghost use Rattle.std.specs.Prelude.{◌≡◌, ◌+◌, ◌<◌, ◌≤◌, ◌^◌, IfOk, IsErrOf, OnOk, length};
ghost use Rattle.acc_forms.specs.Joined.{conj, disj};
ghost use Rattle.aut_base.specs.declared.limit.TheConstants.{MOST_NAMES};
ghost use Rattle.aut_core.specs.SymbolicAutomata.{AreSymbolicParts, automaton_of};
ghost use Rattle.aut_core.specs.OtherNames.{joined_names};
ghost use Rattle.aut_ops.specs.Completion.{completed};
ghost use Rattle.aut_ops.specs.Languages.{AcceptsBoth, AcceptsEither, ArePairwise};
ghost use Rattle.aut_ops.specs.Products.{ArePairs, HasMorePairs, IsProduct, over_both};
ghost use Rattle.aut_ops.specs.declared.fault.ExploreFault.{ExploreFault};
ghost use Rattle.aut_ops.specs.declared.fault.PairFault.{PairFault};
ghost use Rattle.aut_base.specs.declared.limit.TheConstants.{MOST_PAIRS};
ghost use Rattle.aut_ops.specs.inner.Joins.{IsProductCore, JoinAccepts, join_of};
ghost use Rattle.aut_ops.specs.Paired.{symbolic_of_pairs};
ghost use Rattle.label_guards.specs.Store.{Keeps};

use crate::breadth_first::{explore, list_starts};
use crate::completion::made_complete;
use crate::fault::{ExploreFault, PairFault};
use crate::join::Join;
use crate::pairing::Pairing;
use crate::shared::{made_or, share};
use aut_base::{Formula, Names, Numbers};
use aut_core::{Automaton, Links, copy_names, join_names};
use indexmap::IndexSet;
use label_guards::Guards;
use std::alloc::Global;

/// The product: an automaton that accepts the intersection of the two languages. Its states are the pairs of states that are reached
/// by the same letters from starts of both, in breadth-first order.
pub fn product(alloc: Global, a: &Automaton, b: &Automaton) -> Result<Automaton, PairFault>
    requires sets { length (joined_names a.now.names b.now.names) ≤ MOST_NAMES → a.now.sets + b.now.sets < 2 ^ 32 }
    ensures shape { IfOk result (λ made. IsProduct conj
        (over_both (automaton_of a.now) (automaton_of b.now) (automaton_of a.now))
        (over_both (automaton_of a.now) (automaton_of b.now) (automaton_of b.now)) (automaton_of made)) }
    ensures accepts { IfOk result (λ made. AcceptsBoth (automaton_of made) (automaton_of a.now) (automaton_of b.now)) }
    ensures within { OnOk result (length (joined_names a.now.names b.now.names) ≤ MOST_NAMES) }
    ensures few { IfOk result (λ made. made.states ≤ MOST_PAIRS) }
    ensures names { IsErrOf result PairFault.Names → MOST_NAMES < length (joined_names a.now.names b.now.names) }
    ensures names_first { IsErrOf result PairFault.Pairs → length (joined_names a.now.names b.now.names) ≤ MOST_NAMES }
    ensures pairs { IsErrOf result PairFault.Pairs → HasMorePairs MOST_PAIRS
        (over_both (automaton_of a.now) (automaton_of b.now) (automaton_of a.now))
        (over_both (automaton_of a.now) (automaton_of b.now) (automaton_of b.now)) }
{
    product_by(alloc, a, b, Join::All)
}

/// The union as a product: an automaton that accepts the union of the two languages. Both are completed first, and its condition is
/// the disjunction of theirs. The limits are those of a product of the completions.
pub fn product_or(alloc: Global, a: &Automaton, b: &Automaton) -> Result<Automaton, PairFault>
    requires states { (completed (automaton_of a.now)).states < 2 ^ 32 }
    requires other_states { (completed (automaton_of b.now)).states < 2 ^ 32 }
    requires sets { (completed (automaton_of a.now)).sets + (completed (automaton_of b.now)).sets < 2 ^ 32 }
    ensures shape { IfOk result (λ made. IsProduct disj
        (over_both (automaton_of a.now) (automaton_of b.now) (completed (automaton_of a.now)))
        (over_both (automaton_of a.now) (automaton_of b.now) (completed (automaton_of b.now))) (automaton_of made)) }
    ensures accepts { IfOk result (λ made. AcceptsEither (automaton_of made) (automaton_of a.now) (automaton_of b.now)) }
    ensures within { OnOk result (length (joined_names a.now.names b.now.names) ≤ MOST_NAMES) }
    ensures few { IfOk result (λ made. made.states ≤ MOST_PAIRS) }
    ensures names { IsErrOf result PairFault.Names → MOST_NAMES < length (joined_names a.now.names b.now.names) }
    ensures names_first { IsErrOf result PairFault.Pairs → length (joined_names a.now.names b.now.names) ≤ MOST_NAMES }
    ensures pairs { IsErrOf result PairFault.Pairs → HasMorePairs MOST_PAIRS
        (over_both (automaton_of a.now) (automaton_of b.now) (completed (automaton_of a.now)))
        (over_both (automaton_of a.now) (automaton_of b.now) (completed (automaton_of b.now))) }
{
    a.well_formedness();
    b.well_formedness();
    let made_first = made_complete(alloc, a)?;
    let made_second = made_complete(alloc, b)?;
    let first = made_or(&made_first, a);
    let second = made_or(&made_second, b);
    first.well_formedness();
    second.well_formedness();
    product_by(alloc, first, second, Join::Any)
}

/// The product over the names of both, under this join of their conditions.
fn product_by(
    alloc: Global,
    a: &Automaton,
    b: &Automaton,
    join: Join,
) -> Result<Automaton, PairFault>
    requires sets { length (joined_names a.now.names b.now.names) ≤ MOST_NAMES → a.now.sets + b.now.sets < 2 ^ 32 }
    ensures shape { IfOk result (λ made. IsProduct (join_of join)
        (over_both (automaton_of a.now) (automaton_of b.now) (automaton_of a.now))
        (over_both (automaton_of a.now) (automaton_of b.now) (automaton_of b.now)) (automaton_of made)) }
    ensures accepts { IfOk result (λ made. JoinAccepts join (automaton_of made) (automaton_of a.now) (automaton_of b.now)) }
    ensures within { OnOk result (length (joined_names a.now.names b.now.names) ≤ MOST_NAMES) }
    ensures few { IfOk result (λ made. made.states ≤ MOST_PAIRS) }
    ensures names { IsErrOf result PairFault.Names → MOST_NAMES < length (joined_names a.now.names b.now.names) }
    ensures names_first { IsErrOf result PairFault.Pairs → length (joined_names a.now.names b.now.names) ≤ MOST_NAMES }
    ensures pairs { IsErrOf result PairFault.Pairs → HasMorePairs MOST_PAIRS
        (over_both (automaton_of a.now) (automaton_of b.now) (automaton_of a.now))
        (over_both (automaton_of a.now) (automaton_of b.now) (automaton_of b.now)) }
{
    a.well_formedness();
    b.well_formedness();
    let names = join_names(alloc, a.names(), b.names())?;
    let _distinct = names.as_slice();
    let both = share(alloc, a, b, &names)?;
    Ok(product_over(alloc, &both.first, both.second(b), join)?)
}

/// The parts of the product of an automaton with itself, and its pairs. From a state of the product alone, it accepts the words that
/// the automaton accepts both from the one state of the pair and from the other.
pub fn square(alloc: Global, a: &Automaton) -> Result<Paired, PairFault>
    requires sets { a.now.sets + a.now.sets < 2 ^ 32 }
    ensures parts { IfOk result (λ made. AreSymbolicParts (symbolic_of_pairs made)) }
    ensures pairs { IfOk result (λ made. ArePairs (automaton_of a.now) (automaton_of a.now) made.pairs.keys) }
    ensures accepts { IfOk result (λ made. ArePairwise (automaton_of (symbolic_of_pairs made)) made.pairs.keys (automaton_of a.now) (automaton_of a.now)) }
    ensures few { IfOk result (λ made. length made.pairs.keys ≤ MOST_PAIRS) }
    ensures keeps { IfOk result (λ made. Keeps a.now.store made.guards) }
    ensures named { IsErrOf result PairFault.Names → ⊥ }
    ensures many { IsErrOf result PairFault.Pairs → HasMorePairs MOST_PAIRS (automaton_of a.now) (automaton_of a.now) }
{
    a.well_formedness();
    Ok(product_parts(alloc, a, a, Join::All)?)
}

/// The product of two automata over the same names, where the first's store has the guards of the second.
fn product_over(
    alloc: Global,
    a: &Automaton,
    b: &Automaton,
    join: Join,
) -> Result<Automaton, ExploreFault>
    requires names { b.now.names ≡ a.now.names }
    requires store { Keeps b.now.store a.now.store }
    requires sets { a.now.sets + b.now.sets < 2 ^ 32 }
    ensures shape { IfOk result (λ made. IsProduct (join_of join) (automaton_of a.now) (automaton_of b.now) (automaton_of made)) }
    ensures accepts { IfOk result (λ made. JoinAccepts join (automaton_of made) (automaton_of a.now) (automaton_of b.now)) }
    ensures few { IfOk result (λ made. made.states ≤ MOST_PAIRS) }
    ensures pairs { IsErrOf result ExploreFault.Pairs → HasMorePairs MOST_PAIRS (automaton_of a.now) (automaton_of b.now) }
{
    let made = product_parts(alloc, a, b, join)?;
    let states = made.pairs.len() as u32;
    Ok(Automaton::from_parts(
        alloc,
        made.names,
        made.guards,
        states,
        made.starts,
        made.links,
        made.sets,
        made.formula,
    )?)
}

/// The parts of a product, and the pairs of states that its states are.
#[derive(Drop)]
pub struct Paired {
    pub names: Names,
    pub guards: Guards,
    pub starts: Numbers,
    pub links: Links,
    pub sets: u32,
    pub formula: Formula,
    pub pairs: IndexSet<(u32, u32)>,
}

/// The parts of the product, and its pairs.
fn product_parts(
    alloc: Global,
    a: &Automaton,
    b: &Automaton,
    join: Join,
) -> Result<Paired, ExploreFault>
    requires names { b.now.names ≡ a.now.names }
    requires store { Keeps b.now.store a.now.store }
    requires sets { a.now.sets + b.now.sets < 2 ^ 32 }
    ensures made { IfOk result (λ made. IsProductCore join a.now b.now made.pairs.keys (symbolic_of_pairs made)) }
    ensures pairs { IfOk result (λ made. ArePairs (automaton_of a.now) (automaton_of b.now) made.pairs.keys) }
    ensures few { IfOk result (λ made. length made.pairs.keys ≤ MOST_PAIRS) }
    ensures keeps { IfOk result (λ made. Keeps b.now.store made.guards) }
    ensures many { IsErrOf result ExploreFault.Pairs → HasMorePairs MOST_PAIRS (automaton_of a.now) (automaton_of b.now) }
{
    a.well_formedness();
    b.well_formedness();
    let sets = a.sets();
    let names = copy_names(a.names())?;
    let formula = join.condition(alloc, a.formula(), b.formula(), sets)?;
    let guards = a.guards().copy(alloc)?;
    let mut pairing = Pairing::new(alloc, guards, a.states() as usize, a.links().len())?;
    let starts = list_starts(alloc, &mut pairing, a.starts(), b.starts())?;
    explore(&mut pairing, a, b)?;
    let (guards, links, pairs) = pairing.into_parts();
    Ok(Paired {
        names,
        guards,
        starts,
        links,
        sets: sets + b.sets(),
        formula,
        pairs,
    })
}
