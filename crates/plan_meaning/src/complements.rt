//! Complements of operands, each made when it is first needed and kept from then on.

ghost use Rattle.std.specs.Prelude.{◌≡◌, IfErr, OnOk, is_some, true};
ghost use Rattle.aut_core.specs.SymbolicAutomata.{automaton_of};
ghost use Rattle.plan_meaning.specs.Complements.{AreFresh, KeepsComplement, StaysKept};
ghost use Rattle.plan_meaning.specs.Operands.{IsOfReadSize};
ghost use Rattle.plan_meaning.specs.inner.Beside.{FindsBeside};
ghost use Rattle.parity_det.specs.Complements.{IsRefusal};

use crate::fault::PlanFault;
use aut_base::Lasso;
use aut_core::Automaton;
use inclusion::counterexample;
use parity_det::{CompFault, complement};
use std::alloc::Global;

// Why so: 'Complements of operands are kept beside the session, and lent to each call' in docs/DECISIONS.md.
/// The complements of the operands of `--included-in`, `--equivalent-to` and `--refute`, as far as they were needed. An
/// operand that isn't deterministic is expensive to complement, and many automata are compared with it.
#[derive(Drop)]
pub struct Complements {
    pub(crate) included_in: Option<Automaton>,
    pub(crate) equivalent_to: Option<Automaton>,
    pub(crate) refuted: Option<Automaton>,
}

impl Complements {
    /// No complement yet.
    pub fn new() -> Self
        ensures { AreFresh result }
    {
        Complements {
            included_in: None,
            equivalent_to: None,
            refuted: None,
        }
    }
}

/// A word that the first automaton accepts and the second doesn't, or None where there is none: a word that the first
/// accepts together with the complement of the second, which is made here unless it is kept.
pub(crate) fn word_beside(
    alloc: Global,
    a: &Automaton,
    b: &Automaton,
    kept: &mut Option<Automaton>,
) -> Result<Option<Lasso>, PlanFault>
    requires size { IsOfReadSize (automaton_of a.now) }
    requires other_size { IsOfReadSize (automaton_of b.now) }
    requires kept { KeepsComplement (automaton_of b.now) kept.old }
    ensures finds { FindsBeside result (automaton_of a.now) (automaton_of b.now) }
    ensures kept { KeepsComplement (automaton_of b.now) kept.new }
    ensures stays { StaysKept kept.old kept.new }
{
    keep_complement(alloc, b, kept)?;
    match kept {
        Some(co_b) => Ok(counterexample(alloc, a, co_b)?),
        None => unreachable!(),
    }
}

/// Makes the complement, unless it is kept.
pub(crate) fn keep_complement(
    alloc: Global,
    b: &Automaton,
    kept: &mut Option<Automaton>,
) -> Result<(), CompFault>
    requires size { IsOfReadSize (automaton_of b.now) }
    requires kept { KeepsComplement (automaton_of b.now) kept.old }
    ensures kept { KeepsComplement (automaton_of b.now) kept.new }
    ensures stays { StaysKept kept.old kept.new }
    ensures made { OnOk result (is_some kept.new ≡ true) }
    ensures refused { IfErr result (IsRefusal (automaton_of b.now)) }
{
    if kept.is_none() {
        *kept = Some(complement(alloc, b)?);
    }
    Ok(())
}
