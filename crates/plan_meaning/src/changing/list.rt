//! The changes of a plan, as a list, and one of them made.

ghost use Rattle.std.specs.Prelude.{◌≡◌, [], ◌∷◌, IfOk, map};
ghost use Rattle.std.specs.Bool.{then_some};
ghost use Rattle.std.specs.Option.{option_map};
ghost use Rattle.aut_core.specs.SymbolicAutomata.{automaton_of};
ghost use Rattle.filter_plan.specs.Words.{has_form};
ghost use Rattle.plan_meaning.specs.Changes.{Bring, changes_of};
ghost use Rattle.plan_meaning.specs.Operands.{AreOperands};
ghost use Rattle.plan_meaning.specs.inner.Stepping.{IsOfSizeBefore, IsOfSizeBehind, IsPossible, StepsChanges, change_of, changes_asked};

use super::combining::{product_or_with, product_with, sum_with};
use super::determinising::complemented;
use super::shaping::{bring, complete, hide, trimmed};
use crate::fault::PlanFault;
use crate::operands::{Automata, product_operand, product_or_operand, sum_operand};
use aut_core::Automaton;
use filter_plan::{Form, Hidden, Plan};
use std::alloc::Global;

/// A change, with its operand, proposition or form.
#[derive(Clone, Copy)]
pub(crate) enum Change<'a> {
    Product(&'a Automaton),
    ProductOr(&'a Automaton),
    Sum(&'a Automaton),
    RemoveAp(&'a Hidden),
    Trim,
    Complement,
    Bring(Form),
    Complete,
}

// Why so: 'Filters and changes of a plan are lists, in code as in the definitions' in docs/DECISIONS.md.
/// The changes of a plan, in the order in which they are made, each if its option is given.
pub(crate) fn changes<'a>(plan: &'a Plan, operands: &'a Automata) -> [Option<Change<'a>>; 8]
    requires { AreOperands plan.now (map automaton_of operands.now) }
    ensures { changes_asked result ≡ changes_of plan.now (map automaton_of operands.now) }
{
    [
        product_operand(plan, operands).map(Change::Product),
        product_or_operand(plan, operands).map(Change::ProductOr),
        sum_operand(plan, operands).map(Change::Sum),
        plan.remove_ap.as_ref().map(Change::RemoveAp),
        plan.trim.then_some(Change::Trim),
        plan.complement.then_some(Change::Complement),
        form_change(plan.form),
        plan.complete.then_some(Change::Complete),
    ]
}

/// The change into a form, where one is asked for.
fn form_change<'a>(form: Form) -> Option<Change<'a>>
    ensures { option_map change_of result ≡ then_some (has_form form) (Bring form) }
{
    match form {
        Form::AsIs => None,
        form => Some(Change::Bring(form)),
    }
}

/// Makes one change.
pub(crate) fn make(alloc: Global, change: &Change, a: Automaton) -> Result<Automaton, PlanFault>
    requires size { IsOfSizeBefore (change_of change.now) (automaton_of a) }
    requires possible { IsPossible (change_of change.now) }
    ensures steps { StepsChanges (change_of change.now ∷ []) (automaton_of a) result }
    ensures size { IfOk result (λ made. IsOfSizeBehind (change_of change.now) (automaton_of made)) }
{
    match change {
        Change::Product(b) => product_with(alloc, &a, b),
        Change::ProductOr(b) => product_or_with(alloc, &a, b),
        Change::Sum(b) => sum_with(alloc, &a, b),
        Change::RemoveAp(hidden) => hide(alloc, &a, hidden),
        Change::Trim => trimmed(alloc, &a),
        Change::Complement => complemented(alloc, &a),
        Change::Bring(form) => bring(alloc, *form, a),
        Change::Complete => complete(alloc, a),
    }
}
