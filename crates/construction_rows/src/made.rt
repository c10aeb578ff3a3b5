//! The constructions, each called in a single function.

ghost use Rattle.std.specs.Prelude.{◌≡◌, ◌<◌, IsTrue, false};
ghost use Rattle.aut_base.specs.Formula.{Inf, formula_tree};
ghost use Rattle.construction_rows.specs.Small.{AreSmall, HasOneSet};

use acc_forms::FormFault;
use ap_project::{Hide, remove_ap};
use aut_base::{Formula, Memory, Text};
use aut_core::{Automaton, NameFault};
use aut_ops::{PairFault, complete, product, product_or, prune, sum, trim};
use degeneralise::{BuchiFault, to_buchi};
use fin_removal::{copies, remove_fin};
use monitor_form::{MonFault, monitor};
use parity_det::{CompFault, complement, parity};
use std::alloc::Global;

/// The greatest numbers of states and sets of the automata that are completed.
const MOST: u32 = 1000;

/// The greatest number of states of which copies can be numbered.
const MOST_STATES: u32 = 4_190_211;

/// The automaton that is made, or the word for why none is.
pub(crate) type Made = Result<Automaton, &'static str>;

/// The constructions on one automaton.
#[derive(Clone, Copy)]
pub(crate) enum Single {
    Complete,
    Trim,
    Prune,
    Copies,
    WithoutFin,
    Buchi,
    Monitor,
    Parity,
    Complement,
}

/// The constructions on two automata.
#[derive(Clone, Copy)]
pub(crate) enum Double {
    Sum,
    Product,
    ProductOr,
}

pub(crate) fn make(alloc: Global, call: Single, a: &Automaton) -> Made {
    match call {
        Single::Complete => completed(alloc, a),
        Single::Trim => in_memory(trim(alloc, a)),
        Single::Prune => pruned(alloc, a),
        Single::Copies => copied(alloc, a),
        Single::WithoutFin => without_fin(alloc, a),
        Single::Buchi => buchi(alloc, a),
        Single::Monitor => monitored(alloc, a),
        Single::Parity => determinised(parity(alloc, a)),
        Single::Complement => complemented(alloc, a),
    }
}

pub(crate) fn make_of_two(alloc: Global, call: Double, a: &Automaton, b: &Automaton) -> Made {
    if !are_small(a, b) {
        return Err("large");
    }
    match call {
        Double::Sum => summed(alloc, a, b),
        Double::Product => paired(both(alloc, a, b)),
        Double::ProductOr => paired(either(alloc, a, b)),
    }
}

/// The automaton with a name hidden.
pub(crate) fn hidden(
    alloc: Global,
    a: &Automaton,
    name: &[u8],
    how: Hide,
) -> Result<Automaton, Memory> {
    remove_ap(alloc, a, &Text::from_bytes(alloc, name)?, how)
}

fn in_memory(made: Result<Automaton, Memory>) -> Made {
    match made {
        Ok(made) => Ok(made),
        Err(_) => Err("memory"),
    }
}

/// Whether the numbers of states and sets are far below 2^32.
fn are_small(a: &Automaton, b: &Automaton) -> bool
    ensures { IsTrue result → AreSmall a.now b.now }
{
    a.states() < MOST && a.sets() < MOST && b.states() < MOST && b.sets() < MOST
}

fn completed(alloc: Global, a: &Automaton) -> Made {
    if !are_small(a, a) {
        return Err("large");
    }
    in_memory(complete_small(alloc, a))
}

fn complete_small(alloc: Global, a: &Automaton) -> Result<Automaton, Memory>
    requires { AreSmall a.now a.now }
{
    complete(alloc, a)
}

fn pruned(alloc: Global, a: &Automaton) -> Made {
    if !has_one_set(a) {
        return Err("condition");
    }
    in_memory(prune_one(alloc, a))
}

fn prune_one(alloc: Global, a: &Automaton) -> Result<Automaton, Memory>
    requires { HasOneSet a.now }
{
    prune(alloc, a)
}

/// Whether the condition is `Inf(0)`.
#[tactic(auto, using(aut_base::proofs::trees::FormulaTrees::formula_trees))]
fn is_again(condition: &Formula) -> bool
    ensures { IsTrue result → formula_tree condition.now ≡ Inf 0 false }
{
    match condition {
        Formula::Inf { set: 0, neg: false } => true,
        _ => false,
    }
}

/// Whether there is one set, and the condition is `Inf(0)`.
fn has_one_set(a: &Automaton) -> bool
    ensures { IsTrue result → HasOneSet a.now }
{
    a.sets() == 1 && is_again(a.formula())
}

fn summed(alloc: Global, a: &Automaton, b: &Automaton) -> Made
    requires { AreSmall a.now b.now }
{
    match sum(alloc, a, b) {
        Ok(made) => Ok(made),
        Err(NameFault::Memory) => Err("memory"),
        Err(NameFault::Names) => Err("names"),
    }
}

fn both(alloc: Global, a: &Automaton, b: &Automaton) -> Result<Automaton, PairFault>
    requires { AreSmall a.now b.now }
{
    product(alloc, a, b)
}

fn either(alloc: Global, a: &Automaton, b: &Automaton) -> Result<Automaton, PairFault>
    requires { AreSmall a.now b.now }
{
    product_or(alloc, a, b)
}

fn paired(made: Result<Automaton, PairFault>) -> Made {
    match made {
        Ok(made) => Ok(made),
        Err(PairFault::Memory) => Err("memory"),
        Err(PairFault::Names) => Err("names"),
        Err(PairFault::Pairs) => Err("pairs"),
    }
}

fn copied(alloc: Global, a: &Automaton) -> Made {
    if a.states() > MOST_STATES {
        return Err("large");
    }
    without_terms(copies(alloc, a))
}

fn without_fin(alloc: Global, a: &Automaton) -> Made {
    if a.states() > MOST_STATES {
        return Err("large");
    }
    without_terms(remove_fin(alloc, a))
}

fn without_terms(made: Result<Automaton, FormFault>) -> Made {
    match made {
        Ok(made) => Ok(made),
        Err(FormFault::Terms) => Err("terms"),
        Err(FormFault::Memory) => Err("memory"),
    }
}

fn buchi(alloc: Global, a: &Automaton) -> Made {
    match to_buchi(alloc, a) {
        Ok(made) => Ok(made),
        Err(BuchiFault::Terms) => Err("terms"),
        Err(BuchiFault::BuchiStates) => Err("states"),
        Err(BuchiFault::Memory) => Err("memory"),
    }
}

fn monitored(alloc: Global, a: &Automaton) -> Made {
    match monitor(alloc, a) {
        Ok(made) => Ok(made),
        Err(MonFault::Memory) => Err("memory"),
        Err(_) => Err("limit"),
    }
}

fn complemented(alloc: Global, a: &Automaton) -> Made {
    if a.states() > MOST || a.sets() > MOST {
        return Err("large");
    }
    determinised(complement(alloc, a))
}

fn determinised(made: Result<Automaton, CompFault>) -> Made {
    match made {
        Ok(made) => Ok(made),
        Err(CompFault::Memory) => Err("memory"),
        Err(_) => Err("limit"),
    }
}
