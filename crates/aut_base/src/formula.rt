//! The acceptance condition of an automaton.

ghost use Rattle.std.specs.Prelude.{◌≡◌, ◌<◌, ◌↔◌, ℕ, not, IsTrue, [], ◌∷◌, ◌++◌, length, map, IfOk, OnOk, OnErr, slice_get};
ghost use Rattle.std.specs.List.{list_any, list_all};
ghost use Rattle.aut_base.specs.Marks.{is_in};
ghost use Rattle.aut_base.specs.Formula.{FormulaTree, FormulaParts, trees, SetsBelow, EachSetsBelow, met, all_met, some_met, formula_tree, formula_parts, formula_list};

use crate::{Marks, Memory};
use std::alloc::Global;

/// An Emerson-Lei condition over the acceptance sets (HOA v1, Acceptance). `neg` is true where `!` is before the set's number: then
/// the atom is about the edges that aren't in the set.
#[cycle(formula)]
#[derive(Debug, Drop)]
pub enum Formula {
    True,
    False,
    Inf { set: u32, neg: bool },
    Fin { set: u32, neg: bool },
    And(Formulas),
    Or(Formulas),
}

/// The parts of a conjunction or disjunction: at least two.
#[cycle(formula)]
#[derive(Debug)]
pub struct Formulas {
    first: Box<Formula>,
    second: Box<Formula>,
    others: Vec<Formula>,
}

// Written down, so that it is proved here alone.
impl Drop for Formulas {
    #[cycle(formula_drop)]
    fn drop(self) {
        let Formulas {
            first: _,
            second: _,
            others: _,
        } = self;
    }
}

impl Formula {
    /// A copy of the condition.
    #[cycle(formula_copy)]
    pub fn copy(&self, alloc: Global) -> Result<Formula, Memory>
        ensures { IfOk result (λ new. formula_tree new ≡ formula_tree self.now) }
    {
        match self {
            Formula::True => Ok(Formula::True),
            Formula::False => Ok(Formula::False),
            Formula::Inf { set, neg } => Ok(Formula::Inf {
                set: *set,
                neg: *neg,
            }),
            Formula::Fin { set, neg } => Ok(Formula::Fin {
                set: *set,
                neg: *neg,
            }),
            Formula::And(parts) => Ok(Formula::And(parts.copy(alloc)?)),
            Formula::Or(parts) => Ok(Formula::Or(parts.copy(alloc)?)),
        }
    }
}

impl Formula {
    /// Whether the condition is met by a run whose edges that occur infinitely often are those of this cycle, given by the marks of
    /// each.
    #[cycle(formula_met)]
    #[tactic(auto, using(crate::proofs::trees::FormulaTrees::formula_trees))]
    pub fn met_by(&self, cycle: &[Marks]) -> bool
        requires { 0 < length cycle.now }
        ensures { result ≡ met cycle.now (formula_tree self.now) }
    {
        match self {
            Formula::True => true,
            Formula::False => false,
            Formula::Inf { set, neg } => {
                if *neg {
                    some_edge_outside(*set, cycle)
                } else {
                    some_edge_inside(*set, cycle)
                }
            }
            Formula::Fin { set, neg } => {
                if *neg {
                    all_edges_inside(*set, cycle)
                } else {
                    all_edges_outside(*set, cycle)
                }
            }
            Formula::And(parts) => parts.first.met_by(cycle)
                && (parts.second.met_by(cycle) && all_met(&parts.others, cycle)),
            Formula::Or(parts) => parts.first.met_by(cycle)
                || (parts.second.met_by(cycle) || some_met(&parts.others, cycle)),
        }
    }
}

impl Formula {
    /// Whether every acceptance set of the condition is below this number.
    #[cycle(formula_below)]
    #[tactic(auto, using(crate::proofs::trees::FormulaTrees::formula_trees))]
    pub fn is_below(&self, sets: u32) -> bool
        ensures { IsTrue result ↔ SetsBelow sets (formula_tree self.now) }
    {
        match self {
            Formula::True | Formula::False => true,
            Formula::Inf { set, .. } | Formula::Fin { set, .. } => *set < sets,
            Formula::And(parts) | Formula::Or(parts) => parts.first.is_below(sets)
                && (parts.second.is_below(sets) && all_below(&parts.others, sets)),
        }
    }
}

// Whether every acceptance set of these parts is below the number.
#[cycle(formula_below)]
fn all_below(parts: &[Formula], sets: u32) -> bool
    ensures { IsTrue result ↔ EachSetsBelow sets (trees (map formula_tree parts.now)) }
{
    'parts: for part in parts {
        if !part.is_below(sets) {
            return false;
        }
    }
    true
}

#[tactic(auto, using(crate::proofs::trees::FormulaTrees::formula_trees))]
impl Formulas {
    /// These two parts.
    pub fn pair(alloc: Global, first: Formula, second: Formula) -> Result<Formulas, Memory>
        ensures { IfOk result (λ new. formula_list new ≡ formula_tree first ∷ formula_tree second ∷ []) }
    {
        let first = Box::new(alloc, first)?;
        let second = Box::new(alloc, second)?;
        Ok(Formulas {
            first,
            second,
            others: Vec::new(alloc),
        })
    }

    /// Adds a part at the end. Refused for want of memory, it drops the part and leaves the others as they were.
    pub fn push(&mut self, item: Formula) -> Result<(), Memory>
        ensures ok { OnOk result (formula_list self.new ≡ formula_list self.old ++ formula_tree item ∷ []) }
        ensures err { OnErr result (formula_list self.new ≡ formula_list self.old) }
    {
        match self.others.push(item) {
            Ok(()) => Ok(()),
            Err(_) => Err(Memory),
        }
    }

    /// The number of parts.
    pub fn len(&self) -> usize
        ensures { result ≡ length (formula_list self.now) }
    {
        self.others.len() + 2
    }

    /// The part at this index, from 0.
    pub fn at(&self, place: usize) -> &Formula
        requires { place < length (formula_list self.now) }
        ensures { slice_get (formula_list self.now) place ≡ Some (formula_tree result.now) }
    {
        match place {
            0 => &self.first,
            1 => &self.second,
            _ => &self.others[place - 2],
        }
    }

    /// A copy of the parts.
    #[cycle(formula_copy)]
    pub fn copy(&self, alloc: Global) -> Result<Formulas, Memory>
        ensures { IfOk result (λ new. formula_parts new ≡ formula_parts self.now) }
    {
        let first = self.first.copy(alloc)?;
        let mut copies = Formulas::pair(alloc, first, self.second.copy(alloc)?)?;
        copies.others = copy_all(alloc, &self.others)?;
        Ok(copies)
    }
}

// Copies of these parts, in order.
#[cycle(formula_copy)]
fn copy_all(alloc: Global, parts: &[Formula]) -> Result<Vec<Formula>, Memory>
    ensures { IfOk result (λ new. map formula_tree new.items ≡ map formula_tree parts.now) }
{
    let mut copies = Vec::new(alloc);
    'parts: for part in parts {
        let copied = part.copy(alloc)?;
        copies.push(copied)?;
    }
    Ok(copies)
}

// Whether the cycle meets each of these parts.
#[cycle(formula_met)]
fn all_met(parts: &[Formula], cycle: &[Marks]) -> bool
    requires { 0 < length cycle.now }
    ensures { result ≡ all_met cycle.now (trees (map formula_tree parts.now)) }
{
    'parts: for part in parts {
        if !part.met_by(cycle) {
            return false;
        }
    }
    true
}

// Whether the cycle meets one of these parts.
#[cycle(formula_met)]
fn some_met(parts: &[Formula], cycle: &[Marks]) -> bool
    requires { 0 < length cycle.now }
    ensures { result ≡ some_met cycle.now (trees (map formula_tree parts.now)) }
{
    'parts: for part in parts {
        if part.met_by(cycle) {
            return true;
        }
    }
    false
}

fn some_edge_inside(set: u32, cycle: &[Marks]) -> bool
    ensures { result ≡ list_any (is_in set) cycle.now }
{
    cycle.iter().any(|marks| marks.has(set))
}

fn some_edge_outside(set: u32, cycle: &[Marks]) -> bool
    ensures { result ≡ list_any (λ marks. not (is_in set marks)) cycle.now }
{
    cycle.iter().any(|marks| !marks.has(set))
}

fn all_edges_inside(set: u32, cycle: &[Marks]) -> bool
    ensures { result ≡ list_all (is_in set) cycle.now }
{
    cycle.iter().all(|marks| marks.has(set))
}

fn all_edges_outside(set: u32, cycle: &[Marks]) -> bool
    ensures { result ≡ list_all (λ marks. not (is_in set marks)) cycle.now }
{
    cycle.iter().all(|marks| !marks.has(set))
}
