//! What the rules speak of, picked out of what was read.

ghost use Rattle.std.specs.Prelude.{◌≡◌, [], ◌++◌, false, map, flat_map, filter_map, get_or, option_to_list, IfOk, OnOk};
ghost use Rattle.std.specs.Option.{option_map, option_map_or};
ghost use Rattle.hoa_reader.specs.inner.Gathered.{ArePartsOf};
ghost use Rattle.hoa_parser.specs.Raw.{raw_tree, written, written_edge, written_item, written_state};
ghost use Rattle.hoa_reader.specs.Validity.{acceptance_item, alias_item, body_labels, names_item, start_item, states_item};
ghost use Rattle.hoa_reader.specs.inner.PickedOut.{alias_def, acceptance_def, label_refs, list_of, no_acceptance};

use crate::elaborate::rules::numbers_rise;
use crate::elaborate::sums::{Sums, body_sums};
use crate::elaborate::used::after_starts;
use aut_base::{FewNumbers, Formula, Memory, Text};
use hoa_lexer::Name;
use hoa_parser::{Item, Raw, RawEdge, RawLabel, RawState};
use std::alloc::Global;

/// An alias with its label.
#[derive(Clone, Copy)]
pub(crate) struct AliasDef<'a> {
    pub(crate) name: &'a Name,
    pub(crate) label: &'a RawLabel,
}

/// The number of acceptance sets with the condition over them.
#[derive(Clone, Copy)]
pub(crate) struct AcceptanceDef<'a> {
    pub(crate) sets: u32,
    pub(crate) formula: &'a Formula,
}

/// The names of the first `AP:` line.
pub(crate) fn names_of(items: &[Item]) -> &[Text]
    ensures { result.now ≡ get_or (filter_map names_item (map written_item items.now)) 0 [] }
{
    'items: for item in items {
        if let Item::Ap { names, .. } = item {
            return names.as_slice();
        }
    }
    &[]
}

/// The number of the first `States:` line.
pub(crate) fn count_of_states(items: &[Item]) -> Option<u32>
    ensures { result ≡ list_of (filter_map states_item (map written_item items.now)) }
{
    'items: for item in items {
        if let Item::States(count) = item {
            return Some(*count);
        }
    }
    None
}

/// What the first `Acceptance:` line says.
pub(crate) fn acceptance_of(items: &[Item]) -> Option<AcceptanceDef<'_>>
    ensures { option_map_or acceptance_def result no_acceptance ≡ get_or (filter_map acceptance_item (map written_item items.now)) 0 no_acceptance }
{
    'items: for item in items {
        if let Item::Acceptance { sets, formula } = item {
            return Some(AcceptanceDef {
                sets: *sets,
                formula,
            });
        }
    }
    None
}

/// The aliases, in order.
#[tactic(auto, using(std::proofs::lemmas::Grind::common_steps))]
pub(crate) fn aliases_of(alloc: Global, items: &[Item]) -> Result<Vec<AliasDef<'_>>, Memory>
    ensures { IfOk result (λ defs. map alias_def defs.items ≡ filter_map alias_item (map written_item items.now)) }
{
    let mut defs = Vec::new(alloc);
    'items: for item in items {
        let Item::Alias { name, label } = item else {
            continue;
        };
        defs.push(AliasDef { name, label })?;
    }
    Ok(defs)
}

/// What the `Start:` lines name, in order.
#[tactic(auto, using(std::proofs::lemmas::Grind::common_steps))]
pub(crate) fn starts_of(alloc: Global, items: &[Item]) -> Result<Vec<&FewNumbers>, Memory>
    ensures { IfOk result (λ starts. map (λ s. s.now) starts.items ≡ filter_map start_item (map written_item items.now)) }
{
    let mut starts = Vec::new(alloc);
    'items: for item in items {
        let Item::Start(states) = item else {
            continue;
        };
        starts.push(states)?;
    }
    Ok(starts)
}

/// The labels of states and edges, in order.
pub(crate) fn labels_of(alloc: Global, states: &[RawState]) -> Result<Vec<&RawLabel>, Memory>
    ensures { IfOk result (λ labels. map label_refs labels.items ≡ body_labels (map written_state states.now)) }
{
    let mut labels = Vec::new(alloc);
    'states: for state in states {
        add_label(&mut labels, &state.label)?;
        add_labels(&mut labels, state.edges.as_slice())?;
    }
    Ok(labels)
}

/// The labels of states and edges, in order, but none where no alias stands in them: nothing asks for these.
fn labels_with_aliases(
    alloc: Global,
    states: &[RawState],
    plain: bool,
) -> Result<Vec<&RawLabel>, Memory>
    ensures { IfOk result (λ labels. plain ≡ false → map label_refs labels.items ≡ body_labels (map written_state states.now)) }
{
    if plain {
        return Ok(Vec::new(alloc));
    }
    labels_of(alloc, states)
}

/// Adds the labels of these edges.
fn add_labels<'a>(labels: &mut Vec<&'a RawLabel>, edges: &'a [RawEdge]) -> Result<(), Memory>
    ensures { OnOk result (map label_refs labels.new.items ≡ map label_refs labels.old.items ++ flat_map (λ e. option_to_list e.label) (map written_edge edges.now)) }
{
    'edges: for edge in edges {
        add_label(labels, &edge.label)?;
    }
    Ok(())
}

/// Adds the label, if there is one.
#[inline]
fn add_label<'a>(labels: &mut Vec<&'a RawLabel>, label: &'a Option<RawLabel>) -> Result<(), Memory>
    ensures { OnOk result (map label_refs labels.new.items ≡ map label_refs labels.old.items ++ option_to_list (option_map raw_tree label.now)) }
{
    if let Some(label) = label {
        labels.push(label)?;
    }
    Ok(())
}

/// What the rules speak of.
#[derive(Drop)]
pub(crate) struct Parts<'a> {
    pub(crate) names: &'a [Text],
    pub(crate) acceptance: Option<AcceptanceDef<'a>>,
    pub(crate) defs: Vec<AliasDef<'a>>,
    pub(crate) starts: Vec<&'a FewNumbers>,
    /// What one pass over the body tells.
    pub(crate) sums: Sums,
    /// The labels of states and edges, where an alias stands in one.
    pub(crate) labels: Vec<&'a RawLabel>,
    /// The least number that is above every number of a state.
    pub(crate) after: u64,
    /// Whether the numbers of the states rise.
    pub(crate) rising: bool,
}

/// What the rules speak of in what was read.
pub(crate) fn parts_of(alloc: Global, raw: &Raw) -> Result<Parts<'_>, Memory>
    ensures { IfOk result (ArePartsOf (written raw.now)) }
{
    let items = raw.items.as_slice();
    let states = raw.states.as_slice();
    let names = names_of(items);
    let starts = starts_of(alloc, items)?;
    let sums = body_sums(states, names.len());
    let after = after_starts(starts.as_slice(), sums.after);
    Ok(Parts {
        names,
        acceptance: acceptance_of(items),
        defs: aliases_of(alloc, items)?,
        starts,
        sums,
        labels: labels_with_aliases(alloc, states, sums.plain)?,
        after,
        rising: numbers_rise(states),
    })
}
