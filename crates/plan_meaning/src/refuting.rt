//! A word that an automaton accepts and the operand of `--refute` doesn't.

ghost use Rattle.std.specs.Prelude.{◌≡◌, is_some, map, true, MatchOption};
ghost use Rattle.aut_core.specs.SymbolicAutomata.{automaton_of};
ghost use Rattle.filter_plan.specs.Table.{refuted};
ghost use Rattle.plan_meaning.specs.Complements.{AreComplementsKept, KeepsComplement, StayKept, StaysKept};
ghost use Rattle.plan_meaning.specs.Operands.{AreOperands, IsOfReadSize, refuted_operand};
ghost use Rattle.plan_meaning.specs.Refutations.{Refuted};

use crate::complements::{Complements, word_beside};
use crate::fault::PlanFault;
use crate::operands::{Automata, refuted_operand};
use aut_base::{Lasso, Names};
use aut_core::{Automaton, join_names};
use filter_plan::Plan;
use std::alloc::Global;

/// A word that refutes inclusion, and the names that its letters are over.
#[derive(Debug, Drop)]
pub struct Refutation {
    pub word: Lasso,
    /// The names of the automaton, and then those of the operand that the automaton doesn't have.
    pub names: Names,
}

/// A reduced word that the automaton accepts and the operand of `--refute` doesn't, or None exactly where it accepts only
/// what the operand accepts. Refused as a limit where the complement of the operand, or its product with the automaton,
/// passes one. The complement is kept.
pub fn refute(
    alloc: Global,
    plan: &Plan,
    operands: &Automata,
    complements: &mut Complements,
    a: &Automaton,
) -> Result<Option<Refutation>, PlanFault>
    requires refutes { is_some (refuted plan.now.output) ≡ true }
    requires operands { AreOperands plan.now (map automaton_of operands.now) }
    requires size { IsOfReadSize (automaton_of a.now) }
    requires kept { AreComplementsKept plan.now (map automaton_of operands.now) complements.old }
    ensures refuted { MatchOption (refuted_operand plan.now (map automaton_of operands.now)) ⊥ (λ b. Refuted result (automaton_of a.now) b) }
    ensures kept { AreComplementsKept plan.now (map automaton_of operands.now) complements.new }
    ensures stay { StayKept complements.old complements.new }
{
    match refuted_operand(plan, operands) {
        Some(other) => refuted_by(alloc, a, other, &mut complements.refuted),
        None => unreachable!(),
    }
}

/// As `refute`, given the operand.
fn refuted_by(
    alloc: Global,
    a: &Automaton,
    other: &Automaton,
    kept: &mut Option<Automaton>,
) -> Result<Option<Refutation>, PlanFault>
    requires size { IsOfReadSize (automaton_of a.now) }
    requires other_size { IsOfReadSize (automaton_of other.now) }
    requires kept { KeepsComplement (automaton_of other.now) kept.old }
    ensures refuted { Refuted result (automaton_of a.now) (automaton_of other.now) }
    ensures kept { KeepsComplement (automaton_of other.now) kept.new }
    ensures stays { StaysKept kept.old kept.new }
{
    match word_beside(alloc, a, other, kept)? {
        Some(word) => {
            let names = join_names(alloc, a.names(), other.names())?;
            Ok(Some(Refutation { word, names }))
        }
        None => Ok(None),
    }
}
