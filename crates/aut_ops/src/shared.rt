//! Two automata over the same names, with their guards in one store.

ghost use Rattle.std.specs.Prelude.{◌≡◌, ◌≤◌, All, Contains, IfOk, length, unwrap_or};
ghost use Rattle.aut_base.specs.declared.limit.TheConstants.{MOST_NAMES};
ghost use Rattle.aut_core.specs.SymbolicAutomata.{automaton_of};
ghost use Rattle.aut_core.specs.OtherNames.{AcceptTheSame, HaveBoth, over_names};
ghost use Rattle.label_guards.specs.Store.{Keeps};

use aut_base::{Memory, Names};
use aut_core::Automaton;
use std::alloc::Global;

/// Two automata over the same names. The store of the first includes that of the second.
#[derive(Drop)]
pub(crate) struct Shared {
    pub(crate) first: Automaton,
    /// The second, unless the given one was over these names already: then that is used.
    made: Option<Automaton>,
}

impl Shared {
    /// The second automaton, which may be the given one.
    pub(crate) fn second<'a>(&'a self, given: &'a Automaton) -> &'a Automaton
        ensures { result.now ≡ unwrap_or self.now.made given.now }
    {
        made_or(&self.made, given)
    }
}

/// The automaton that was made, or else the given one.
pub(crate) fn made_or<'a>(made: &'a Option<Automaton>, given: &'a Automaton) -> &'a Automaton
    ensures { result.now ≡ unwrap_or made.now given.now }
{
    match made {
        Some(made) => made,
        None => given,
    }
}

// Why so: 'The first of two automata is brought to the second' in docs/DECISIONS.md.
/// Both automata over these names, which include theirs.
pub(crate) fn share(
    alloc: Global,
    a: &Automaton,
    b: &Automaton,
    names: &Names,
) -> Result<Shared, Memory>
    requires both { HaveBoth a.now.names b.now.names names.now }
    requires few { length names.now ≤ MOST_NAMES }
    ensures first { IfOk result (λ both. automaton_of both.first ≡ over_names names.now (automaton_of a.now)) }
    ensures second { IfOk result (λ both. automaton_of (unwrap_or both.made b.now) ≡ over_names names.now (automaton_of b.now)) }
    ensures first_accepts { IfOk result (λ both. AcceptTheSame (automaton_of both.first) (automaton_of a.now)) }
    ensures second_accepts { IfOk result (λ both. AcceptTheSame (automaton_of (unwrap_or both.made b.now)) (automaton_of b.now)) }
    ensures store { IfOk result (λ both. Keeps (unwrap_or both.made b.now).store both.first.store) }
{
    b.well_formedness();
    if names.as_slice() == b.names().as_slice() {
        let first = beside(alloc, a, names, b)?;
        return Ok(Shared { first, made: None });
    }
    let second = b.over(alloc, names)?;
    let first = beside(alloc, a, names, &second)?;
    Ok(Shared {
        first,
        made: Some(second),
    })
}

/// The automaton over these names, with its guards translated into a copy of the store of another automaton, which is over them.
fn beside(
    alloc: Global,
    a: &Automaton,
    names: &Names,
    other: &Automaton,
) -> Result<Automaton, Memory>
    requires has { All (Contains names.now) a.now.names }
    requires few { length names.now ≤ MOST_NAMES }
    requires other { other.now.names ≡ names.now }
    ensures over { IfOk result (λ made. automaton_of made ≡ over_names names.now (automaton_of a.now)) }
    ensures accepts { IfOk result (λ made. AcceptTheSame (automaton_of made) (automaton_of a.now)) }
    ensures store { IfOk result (λ made. Keeps other.now.store made.store) }
{
    other.well_formedness();
    let guards = other.guards().copy(alloc)?;
    a.over_in(alloc, names, guards)
}
