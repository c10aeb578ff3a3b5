//! Automata whose labels are guards: decision diagrams in a store.

ghost use Rattle.std.specs.Prelude.{◌≡◌, ◌==◌, ◌<◌, ◌≤◌, ◌↔◌, ℕ, All, Contains, filter, IfOk, IsTrue, length, map};
ghost use Rattle.aut_base.specs.Formula.{SetsBelow, formula_tree};
ghost use Rattle.aut_base.specs.declared.limit.TheConstants.{MOST_NAMES};
ghost use Rattle.aut_core.specs.SymbolicAutomata.{AreSymbolicParts, IsWellFormedSymbolic, automaton_of, edge_of};
ghost use Rattle.aut_core.specs.Deterministic.{GoesOneWay, IsComplete, IsDeterministic};
ghost use Rattle.aut_core.specs.Index.{IsIndex};
ghost use Rattle.aut_core.specs.Links.{StandFor};
ghost use Rattle.aut_core.specs.OtherNames.{over_names};
ghost use Rattle.aut_core.specs.Surveys.{AreSurveyed};

use crate::copies::{copy_links, copy_names, copy_numbers, copy_places};
use crate::link::{Link, Links, marks_rise, rows_of};
use crate::survey::{GuardSurvey, survey_states};
use aut_base::{Formula, Memory, Names, Numbers, Places};
use label_guards::{Draft, Guards};
use std::alloc::Global;
use std::marker::Model;

// Why so: 'An automaton keeps its labels in a store of its own' in docs/DECISIONS.md.
/// A transition-based omega-automaton with an Emerson-Lei condition, and its labels in a store of its own.
pub struct Automaton {
    /// In a box, so that moving an automaton moves a pointer, and dropping one is a call and not code at each place.
    fields: Box<Fields>,
}

// Written down, so that it is proved here alone.
impl Drop for Automaton {
    fn drop(self) {
        let Automaton { fields: _ } = self;
    }
}

/// The parts of an automaton.
#[derive(Drop)]
struct Fields {
    names: Names,
    guards: Guards,
    states: u32,
    starts: Numbers,
    links: Links,
    /// For each state the index of its first link, and at the end the number of links.
    rows: Places,
    sets: u32,
    formula: Formula,
    is_deterministic: bool,
    is_complete: bool,
}

impl Model for Automaton {
    ghost use Rattle.std.specs.Coded.{codes};
    ghost use Rattle.aut_base.specs.Formula.{formula_tree};
    ghost use Rattle.aut_core.specs.SymbolicAutomata.{SymbolicAutomaton};
    ghost use Rattle.aut_core.specs.FormulaCode.{formula_code};
    ghost use Rattle.aut_core.specs.Kept.{IsIndexed};

    ghost Value = { SymbolicAutomaton };

    ghost coded = { Prim.hlevel (codes, formula_code) };

    ghost view = { λ s. record {
      names = s.fields.value.names;
      starts = s.fields.value.starts;
      states = s.fields.value.states;
      links = s.fields.value.links;
      sets = s.fields.value.sets;
      formula = formula_tree s.fields.value.formula;
      store = s.fields.value.guards;
    } };

    ghost invariant = { λ s. IsIndexed (record {
      names = s.fields.value.names;
      starts = s.fields.value.starts;
      states = s.fields.value.states;
      links = s.fields.value.links;
      sets = s.fields.value.sets;
      formula = formula_tree s.fields.value.formula;
      store = s.fields.value.guards;
    }) s.fields.value.rows s.fields.value.is_deterministic s.fields.value.is_complete };
}

impl Automaton {
    /// The automaton of these parts. Refused for want of memory, it drops them.
    pub fn from_parts(
        alloc: Global,
        names: Names,
        guards: Guards,
        states: u32,
        starts: Numbers,
        links: Links,
        sets: u32,
        formula: Formula,
    ) -> Result<Automaton, Memory>
        requires { AreSymbolicParts (record { names = names; starts = starts; states = states; links = links; sets = sets; formula = formula_tree formula; store = guards }) }
        ensures { IfOk result (λ made. made ≡ record { names = names; starts = starts; states = states; links = links; sets = sets; formula = formula_tree formula; store = guards }) }
    {
        let rows = rows_of(alloc, links.as_slice(), states)?;
        let mut draft = Draft::new(alloc, guards);
        let found = survey_states(&mut draft, &names, links.as_slice(), &rows, states)?;
        let guards = draft.into_guards();
        Automaton::surveyed(
            alloc, names, guards, states, starts, links, rows, sets, formula, found,
        )
    }

    /// The automaton of these parts, in which each letter satisfies the label of just one edge of every state, as with implicit labels
    /// (HOA v1). So determinism and completeness are known, and no guard is compared. Refused for want of memory, it drops the parts.
    pub fn from_letters(
        alloc: Global,
        names: Names,
        guards: Guards,
        states: u32,
        starts: Numbers,
        links: Links,
        sets: u32,
        formula: Formula,
    ) -> Result<Automaton, Memory>
        requires parts { AreSymbolicParts (record { names = names; starts = starts; states = states; links = links; sets = sets; formula = formula_tree formula; store = guards }) }
        requires letters { GoesOneWay (automaton_of (record { names = names; starts = starts; states = states; links = links; sets = sets; formula = formula_tree formula; store = guards })) }
        ensures { IfOk result (λ made. made ≡ record { names = names; starts = starts; states = states; links = links; sets = sets; formula = formula_tree formula; store = guards }) }
    {
        let rows = rows_of(alloc, links.as_slice(), states)?;
        let found = GuardSurvey {
            disjoint: true,
            exhaustive: true,
        };
        Automaton::surveyed(
            alloc, names, guards, states, starts, links, rows, sets, formula, found,
        )
    }

    /// The automaton of these parts, whose guards were surveyed, with the index of each state's first link.
    fn surveyed(
        alloc: Global,
        names: Names,
        guards: Guards,
        states: u32,
        starts: Numbers,
        links: Links,
        rows: Places,
        sets: u32,
        formula: Formula,
        found: GuardSurvey,
    ) -> Result<Automaton, Memory>
        requires parts { AreSymbolicParts (record { names = names; starts = starts; states = states; links = links; sets = sets; formula = formula_tree formula; store = guards }) }
        requires rows { IsIndex links states rows }
        requires found { AreSurveyed names (map (edge_of guards) links) states found }
        ensures { IfOk result (λ made. made ≡ record { names = names; starts = starts; states = states; links = links; sets = sets; formula = formula_tree formula; store = guards }) }
    {
        marks_rise(links.as_slice());
        let _names = names.as_slice();
        let is_single = starts.len() <= 1;
        let is_deterministic = is_single && found.disjoint;
        let has_start = !starts.is_empty();
        let is_complete = has_start && found.exhaustive;
        let fields = Fields {
            names,
            guards,
            states,
            starts,
            links,
            rows,
            sets,
            formula,
            is_deterministic,
            is_complete,
        };
        Ok(Automaton {
            fields: Box::new(alloc, fields)?,
        })
    }

    /// The names of the atomic propositions.
    #[inline]
    pub fn names(&self) -> &Names
        ensures { result.now ≡ self.now.names }
    {
        &self.fields.names
    }

    /// The states where runs may start.
    #[inline]
    pub fn starts(&self) -> &Numbers
        ensures { result.now ≡ self.now.starts }
    {
        &self.fields.starts
    }

    /// The number of states, which are the numbers below it.
    #[inline]
    pub fn states(&self) -> u32
        ensures { result ≡ self.now.states }
    {
        self.fields.states
    }

    /// The number of acceptance sets, which are the numbers below it.
    #[inline]
    pub fn sets(&self) -> u32
        ensures { result ≡ self.now.sets }
    {
        self.fields.sets
    }

    /// The acceptance condition.
    #[inline]
    pub fn formula(&self) -> &Formula
        ensures { formula_tree result.now ≡ self.now.formula }
    {
        &self.fields.formula
    }

    /// The store of the labels.
    #[inline]
    pub fn guards(&self) -> &Guards
        ensures { result.now ≡ self.now.store }
    {
        &self.fields.guards
    }

    /// The edges, in the order of the states that they leave.
    #[inline]
    pub fn links(&self) -> &[Link]
        ensures { result.now ≡ self.now.links }
    {
        self.fields.links.as_slice()
    }

    /// The edges that leave this state, in order. Takes constant time.
    #[inline]
    pub fn links_of(&self, state: u32) -> &[Link]
        requires { state < self.now.states }
        ensures { result.now ≡ filter (λ l. l.from == state) self.now.links }
    {
        let fields: &Fields = &self.fields;
        let start = *fields.rows.at(state as usize);
        let end = *fields.rows.at(state as usize + 1);
        &fields.links.as_slice()[start..end]
    }

    /// Whether there is at most one start and no letter satisfies the labels of two edges of a state. Takes constant time.
    #[inline]
    pub fn is_deterministic(&self) -> bool
        ensures { IsTrue result ↔ IsDeterministic (automaton_of self.now) }
    {
        self.fields.is_deterministic
    }

    /// Whether there is a start and at every state each letter satisfies the label of some edge. Takes constant time.
    #[inline]
    pub fn is_complete(&self) -> bool
        ensures { IsTrue result ↔ IsComplete (automaton_of self.now) }
    {
        self.fields.is_complete
    }

    /// A copy of the automaton.
    pub fn copy(&self, alloc: Global) -> Result<Automaton, Memory>
        ensures { IfOk result (λ copy. copy ≡ self.now) }
    {
        self.well_formedness();
        let names = copy_names(self.names())?;
        let guards = self.guards().copy(alloc)?;
        let links = copy_links(&self.fields.links)?;
        self.relabelled(alloc, names, guards, links)
    }

    /// An automaton of these states, starts and links, with copies of this one's names, labels, acceptance sets and condition.
    pub fn with_states(
        &self,
        alloc: Global,
        states: u32,
        starts: Numbers,
        links: Links,
    ) -> Result<Automaton, Memory>
        requires { AreSymbolicParts (record self.now { states = states; starts = starts; links = links }) }
        ensures { IfOk result (λ made. made ≡ record self.now { states = states; starts = starts; links = links }) }
    {
        let names = copy_names(self.names())?;
        let guards = self.guards().copy(alloc)?;
        let formula = self.formula().copy(alloc)?;
        Automaton::from_parts(
            alloc,
            names,
            guards,
            states,
            starts,
            links,
            self.sets(),
            formula,
        )
    }

    // Why so: 'Determinism and completeness are known when an automaton is made' in docs/DECISIONS.md.
    /// The same automaton over these names, which include its own, with links that are its edges under guards of the new store. The same
    /// letters satisfy their labels, so it is deterministic or complete as it was, and no guard is compared.
    pub(crate) fn relabelled(
        &self,
        alloc: Global,
        names: Names,
        guards: Guards,
        links: Links,
    ) -> Result<Automaton, Memory>
        requires has { All (Contains names) self.now.names }
        requires few { length names ≤ MOST_NAMES }
        requires count { guards.names ≡ length names }
        requires edges { StandFor guards links (over_names names (automaton_of self.now)).edges }
        ensures { IfOk result (λ made. made ≡ record self.now { names = names; store = guards; links = links }) }
    {
        let fields = &self.fields;
        let made = Fields {
            starts: copy_numbers(&fields.starts)?,
            rows: copy_places(&fields.rows)?,
            formula: fields.formula.copy(alloc)?,
            names,
            guards,
            links,
            states: fields.states,
            sets: fields.sets,
            is_deterministic: fields.is_deterministic,
            is_complete: fields.is_complete,
        };
        Ok(Automaton {
            fields: Box::new(alloc, made)?,
        })
    }

    // Why so: 'The same automaton under another condition takes no memory' in docs/DECISIONS.md.
    /// The same automaton under another condition over its sets. Takes no memory.
    pub fn with_formula(self, formula: Formula) -> Automaton
        requires { SetsBelow self.sets (formula_tree formula) }
        ensures { result ≡ record self { formula = formula_tree formula } }
    {
        let Automaton { fields } = self;
        let mut fields = fields;
        fields.formula = formula;
        Automaton { fields }
    }

    /// Gives proofs what holds of each automaton.
    pub fn well_formedness(&self)
        ensures { IsWellFormedSymbolic self.now }
    {
        let _ = &self.fields.names;
    }
}
