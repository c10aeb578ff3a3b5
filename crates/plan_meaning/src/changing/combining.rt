//! What a plan makes of an automaton together with others: product, product-or and sum.
//!
//! The sizes in the contracts are what the next change has to know.

ghost use Rattle.std.specs.Prelude.{[], ◌∷◌, IfOk, IfSome, map};
ghost use Rattle.std.specs.Option.{option_map};
ghost use Rattle.aut_core.specs.SymbolicAutomata.{automaton_of};
ghost use Rattle.plan_meaning.specs.Changes.{Product, ProductOr, Sum};
ghost use Rattle.plan_meaning.specs.Operands.{AreOperands, IsOfReadSize};
ghost use Rattle.plan_meaning.specs.inner.Stepping.{IsOfProductOrSize, IsOfProductSize, IsOfSumSize, StepsChanges};

use crate::fault::PlanFault;
use aut_core::Automaton;
use aut_ops::{product, product_or, sum};
use std::alloc::Global;

pub(crate) fn product_with(
    alloc: Global,
    a: &Automaton,
    b: &Automaton,
) -> Result<Automaton, PlanFault>
    requires size { IsOfReadSize (automaton_of a.now) }
    requires operand { IsOfReadSize (automaton_of b.now) }
    ensures steps { StepsChanges (Product (automaton_of b.now) ∷ []) (automaton_of a.now) result }
    ensures size { IfOk result (λ made. IsOfProductSize (automaton_of made)) }
{
    Ok(product(alloc, a, b)?)
}

pub(crate) fn product_or_with(
    alloc: Global,
    a: &Automaton,
    b: &Automaton,
) -> Result<Automaton, PlanFault>
    requires size { IsOfProductSize (automaton_of a.now) }
    requires operand { IsOfReadSize (automaton_of b.now) }
    ensures steps { StepsChanges (ProductOr (automaton_of b.now) ∷ []) (automaton_of a.now) result }
    ensures size { IfOk result (λ made. IsOfProductOrSize (automaton_of made)) }
{
    Ok(product_or(alloc, a, b)?)
}

pub(crate) fn sum_with(alloc: Global, a: &Automaton, b: &Automaton) -> Result<Automaton, PlanFault>
    requires size { IsOfProductOrSize (automaton_of a.now) }
    requires operand { IsOfReadSize (automaton_of b.now) }
    ensures steps { StepsChanges (Sum (automaton_of b.now) ∷ []) (automaton_of a.now) result }
    ensures size { IfOk result (λ made. IsOfSumSize (automaton_of made)) }
{
    Ok(sum(alloc, a, b)?)
}
