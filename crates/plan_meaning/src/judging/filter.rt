//! The filters of a plan, as a list, and one of them examined.

ghost use Rattle.std.specs.Prelude.{◌≡◌, map};
ghost use Rattle.aut_core.specs.SymbolicAutomata.{automaton_of};
ghost use Rattle.plan_meaning.specs.Complements.{StayKept};
ghost use Rattle.plan_meaning.specs.Filters.{filters};
ghost use Rattle.plan_meaning.specs.Operands.{AreOperands, IsOfReadSize};
ghost use Rattle.plan_meaning.specs.inner.Judging.{AreFrom, ExaminesFilter, IsFilterReady, LeavesOthers, asked_for, filter_of};

use super::comparing::{is_equivalent, is_included};
use super::meeting::{accepts_nothing, accepts_word, intersects, rejects_word};
use super::square::is_unambiguous;
use crate::complements::Complements;
use crate::fault::PlanFault;
use crate::operands::{Automata, equivalent_to_operand, included_in_operand, intersect_operand};
use aut_core::Automaton;
use filter_plan::{Plan, Range};
use std::alloc::Global;
use word_syntax::Pattern;

// Why so: 'What a filter needs is in the filter' in docs/DECISIONS.md.
/// A filter, with its operand, pattern or range.
#[derive(Clone, Copy)]
pub(crate) enum Filter<'a> {
    AcceptsWord(&'a Pattern),
    RejectsWord(&'a Pattern),
    IsEmpty,
    IncludedIn(&'a Automaton),
    EquivalentTo(&'a Automaton),
    Intersects(&'a Automaton),
    IsDeterministic,
    IsComplete,
    IsUnambiguous,
    States(&'a Range),
    Edges(&'a Range),
    Sets(&'a Range),
    Names(&'a Range),
}

/// How many filters there are.
pub(crate) const FILTERS: usize = 13;

// Why so: 'Filters and changes of a plan are lists, in code as in the definitions' in docs/DECISIONS.md.
/// The filters of a plan, in the order in which they are examined, each if its option is given.
pub(crate) fn filters<'a>(plan: &'a Plan, operands: &'a Automata) -> [Option<Filter<'a>>; FILTERS]
    requires operands { AreOperands plan.now (map automaton_of operands.now) }
    ensures list { asked_for result ≡ filters plan.now (map automaton_of operands.now) }
    ensures from { AreFrom plan.now (map automaton_of operands.now) result }
{
    [
        plan.accept_word.as_ref().map(Filter::AcceptsWord),
        plan.reject_word.as_ref().map(Filter::RejectsWord),
        plan.is_empty.then_some(Filter::IsEmpty),
        included_in_operand(plan, operands).map(Filter::IncludedIn),
        equivalent_to_operand(plan, operands).map(Filter::EquivalentTo),
        intersect_operand(plan, operands).map(Filter::Intersects),
        plan.is_deterministic.then_some(Filter::IsDeterministic),
        plan.is_complete.then_some(Filter::IsComplete),
        plan.is_unambiguous.then_some(Filter::IsUnambiguous),
        plan.states.as_ref().map(Filter::States),
        plan.edges.as_ref().map(Filter::Edges),
        plan.acc_sets.as_ref().map(Filter::Sets),
        plan.ap.as_ref().map(Filter::Names),
    ]
}

/// Whether the automaton is as the filter asks.
pub(crate) fn holds(
    alloc: Global,
    filter: &Filter,
    complements: &mut Complements,
    a: &Automaton,
) -> Result<bool, PlanFault>
    requires size { IsOfReadSize (automaton_of a.now) }
    requires ready { IsFilterReady filter.now complements.old }
    ensures examines { ExaminesFilter result (filter_of filter.now) (automaton_of a.now) }
    ensures ready { IsFilterReady filter.now complements.new }
    ensures others { LeavesOthers filter.now complements.old complements.new }
    ensures stay { StayKept complements.old complements.new }
{
    match filter {
        Filter::AcceptsWord(pattern) => accepts_word(alloc, pattern, a),
        Filter::RejectsWord(pattern) => rejects_word(alloc, pattern, a),
        Filter::IsEmpty => accepts_nothing(alloc, a),
        Filter::IncludedIn(other) => is_included(alloc, a, other, &mut complements.included_in),
        Filter::EquivalentTo(other) => {
            is_equivalent(alloc, a, other, &mut complements.equivalent_to)
        }
        Filter::Intersects(other) => intersects(alloc, a, other),
        Filter::IsDeterministic => Ok(a.is_deterministic()),
        Filter::IsComplete => Ok(a.is_complete()),
        Filter::IsUnambiguous => is_unambiguous(alloc, a),
        Filter::States(range) => Ok(range.has(u64::from(a.states()))),
        Filter::Edges(range) => Ok(range.has(a.links().len() as u64)),
        Filter::Sets(range) => Ok(range.has(u64::from(a.sets()))),
        Filter::Names(range) => Ok(range.has(a.names().len() as u64)),
    }
}
