//! Whether an automaton is unambiguous.

ghost use Rattle.std.specs.Prelude.{◌≡◌, ◌↔◌, ◌+◌, ◌<◌, ◌^◌, IfOk, IsErrOf, IsTrue, OnOk};
ghost use Rattle.aut_base.specs.declared.limit.TheConstants.{MOST_PAIRS};
ghost use Rattle.aut_core.specs.SymbolicAutomata.{automaton_of};
ghost use Rattle.aut_ops.specs.Products.{HasMorePairs};
ghost use Rattle.unambiguous.specs.Runs.{IsUnambiguous};
ghost use Rattle.unambiguous.specs.declared.fault.SquareFault.{SquareFault};

use crate::fault::SquareFault;
use crate::parted::parted_square;
use aut_core::Automaton;
use lasso_emptiness::accepts_some;
use std::alloc::Global;

/// Whether on no lasso word two accepting runs of the automaton differ in an edge. Edges are told apart by their index in
/// the list of edges, so an edge that is listed twice counts as two. Takes time and space linear in the edges of the
/// product of the automaton with itself, and then what emptiness takes.
pub fn is_unambiguous(alloc: Global, a: &Automaton) -> Result<bool, SquareFault>
    requires sets { a.now.sets + a.now.sets + 1 < 2 ^ 32 }
    ensures answer { IfOk result (λ found. IsTrue found ↔ IsUnambiguous (automaton_of a.now)) }
    ensures few { OnOk result (HasMorePairs MOST_PAIRS (automaton_of a.now) (automaton_of a.now) → ⊥) }
    ensures many { IsErrOf result SquareFault.Pairs → HasMorePairs MOST_PAIRS (automaton_of a.now) (automaton_of a.now) }
{
    a.well_formedness();
    let parted = parted_square(alloc, a)?;
    let is_ambiguous = accepts_some(alloc, &parted)?;
    Ok(!is_ambiguous)
}
