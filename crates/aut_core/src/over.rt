//! An automaton over more names than its own.

ghost use Rattle.std.specs.Prelude.{◌≡◌, ◌≤◌, ◌<◌, ℕ, All, Contains, IfOk, length, slice_get, Some};
ghost use Rattle.std.specs.List.{slice_index_or};
ghost use Rattle.aut_base.specs.declared.limit.TheConstants.{MOST_NAMES};
ghost use Rattle.aut_core.specs.SymbolicAutomata.{automaton_of};
ghost use Rattle.aut_core.specs.Links.{StandFor};
ghost use Rattle.aut_core.specs.OtherNames.{AcceptTheSame, over_names};
ghost use Rattle.label_guards.specs.Guards.{AreNames};
ghost use Rattle.label_guards.specs.Store.{Keeps};

use crate::automaton::Automaton;
use crate::copies::{copy_marks, copy_names};
use crate::link::{Link, Links};
use aut_base::{Memory, Names, Numbers, Text};
use label_guards::{Brought, Guards};
use std::alloc::Global;

impl Automaton {
    /// The same automaton over a list of names that includes its own, in any order. It accepts the same words. Over its own
    /// names it is a plain copy.
    pub fn over(&self, alloc: Global, names: &Names) -> Result<Automaton, Memory>
        requires has { All (Contains names.now) self.now.names }
        requires few { length names.now ≤ MOST_NAMES }
        ensures over { IfOk result (λ made. automaton_of made ≡ over_names names.now (automaton_of self.now)) }
        ensures accepts { IfOk result (λ made. AcceptTheSame (automaton_of made) (automaton_of self.now)) }
    {
        self.well_formedness();
        if names.as_slice() == self.names().as_slice() {
            return self.copy(alloc);
        }
        let guards = Guards::new(alloc, names.len() as u32)?;
        self.over_in(alloc, names, guards)
    }

    /// The same automaton over these names, which include its own, with its guards translated into this store, whose propositions have
    /// these names. The store keeps the guards that it has.
    pub fn over_in(
        &self,
        alloc: Global,
        names: &Names,
        mut guards: Guards,
    ) -> Result<Automaton, Memory>
        requires has { All (Contains names.now) self.now.names }
        requires few { length names.now ≤ MOST_NAMES }
        requires store { guards.names ≡ length names.now }
        ensures over { IfOk result (λ made. automaton_of made ≡ over_names names.now (automaton_of self.now)) }
        ensures accepts { IfOk result (λ made. AcceptTheSame (automaton_of made) (automaton_of self.now)) }
        ensures keeps { IfOk result (λ made. Keeps guards made.store) }
    {
        self.well_formedness();
        let _distinct = names.as_slice();
        let to = places_in(alloc, self.names(), names)?;
        let links = self.links_over(alloc, &mut guards, names, &to)?;
        self.relabelled(alloc, copy_names(names)?, guards, links)
    }

    /// The links with their guards translated into another store, over its names.
    fn links_over(
        &self,
        alloc: Global,
        guards: &mut Guards,
        names: &Names,
        to: &Numbers,
    ) -> Result<Links, Memory>
        requires names { AreNames guards.old names.now }
        requires count { length to.now ≡ length self.now.names }
        requires within { All (λ place. place < length names.now) to.now }
        requires places { (k : ℕ) → k < length self.now.names → slice_get names.now (slice_index_or to.now k 0) ≡ slice_get self.now.names k }
        ensures keeps { Keeps guards.old guards.new }
        ensures edges { IfOk result (λ links. StandFor guards.new links (over_names names.now (automaton_of self.now)).edges) }
    {
        self.well_formedness();
        let mut links = Links::from_vec(Vec::with_capacity(alloc, self.links().len())?);
        let mut done = Brought::new(alloc);
        'links: for link in self.links() {
            links.push(Link {
                from: link.from,
                guard: guards.bring_more(&mut done, self.guards(), link.guard, to)?,
                to: link.to,
                marks: copy_marks(&link.marks)?,
            })?;
        }
        Ok(links)
    }
}

/// The index of each name in the other list.
fn places_in(alloc: Global, names: &Names, other: &Names) -> Result<Numbers, Memory>
    requires few { length other.now ≤ MOST_NAMES }
    requires has { All (Contains other.now) names.now }
    ensures count { IfOk result (λ to. length to ≡ length names.now) }
    ensures within { IfOk result (All (λ place. place < length other.now)) }
    ensures places { IfOk result (λ to. (k : ℕ) → k < length names.now → slice_get other.now (slice_index_or to k 0) ≡ slice_get names.now k) }
{
    let mut to = Numbers::new(alloc);
    'names: for name in names.as_slice() {
        to.push(place_in(other, name))?;
    }
    Ok(to)
}

/// The index of a name that is in the list.
fn place_in(names: &Names, name: &Text) -> u32
    requires few { length names.now ≤ MOST_NAMES }
    requires has { Contains names.now name.now }
    ensures { slice_get names.now result ≡ Some name.now }
{
    names.position(name).unwrap_or(0)
}
