//! The first rule that is broken.

ghost use Rattle.std.specs.Prelude.{◌≡◌, IfOk, MatchOption};
ghost use Rattle.std.specs.List.{list_all};
ghost use Rattle.hoa_reader.specs.inner.Gathered.{ArePartsOf};
ghost use Rattle.hoa_parser.specs.Raw.{written};
ghost use Rattle.hoa_reader.specs.Validity.{IsFirstBroken, IsValid, defines_its_aliases, keeps_rule, marks_below};
ghost use Rattle.hoa_reader.specs.declared.elaborate.Rule.TheVariants.{V5, V8, V9};

use crate::Rule;
use crate::elaborate::parts::Parts;
use crate::elaborate::{leaves, rules};
use aut_base::Memory;
use hoa_parser::Raw;
use std::alloc::Global;

/// All rules, in order.
const RULES: [Rule; 12] = [
    Rule::V1,
    Rule::V2,
    Rule::V3,
    Rule::V4,
    Rule::V5,
    Rule::V6,
    Rule::V7,
    Rule::V8,
    Rule::V9,
    Rule::V10,
    Rule::V11,
    Rule::V12,
];

/// Whether each start and each edge names one state.
fn names_single_states(raw: &Raw, parts: &Parts<'_>) -> bool
    requires { ArePartsOf (written raw.now) parts.now }
    ensures { result ≡ keeps_rule V5 (written raw.now) }
{
    rules::start_in_single_states(&parts.starts) && parts.sums.single
}

/// Whether no alias is defined twice, and each that is used is defined where it may be used. Where the body uses none, its labels
/// aren't asked.
fn defines_its_aliases<'a>(alloc: Global, raw: &'a Raw, parts: &Parts<'a>) -> Result<bool, Memory>
    requires { ArePartsOf (written raw.now) parts.now }
    ensures { IfOk result (λ kept. kept ≡ defines_its_aliases (written raw.now)) }
{
    if parts.sums.plain {
        return leaves::are_defined(alloc, &parts.defs);
    }
    leaves::defines_aliases(alloc, &parts.defs, &parts.labels)
}

/// Whether every proposition has a name.
fn propositions_have_names(raw: &Raw, parts: &Parts<'_>) -> bool
    requires { ArePartsOf (written raw.now) parts.now }
    ensures { result ≡ keeps_rule V8 (written raw.now) }
{
    let names = parts.names.len();
    leaves::aliases_props_below(&parts.defs, names) && parts.sums.props <= names as u64
}

/// Whether the sets of each state and of its edges are below this number.
fn marks_are_below(raw: &Raw, parts: &Parts<'_>, sets: u32) -> bool
    requires { ArePartsOf (written raw.now) parts.now }
    ensures { result ≡ list_all (marks_below sets) (written raw.now).states }
{
    parts.sums.marks <= u64::from(sets)
}

/// Whether every set is below their number.
fn sets_are_below(raw: &Raw, parts: &Parts<'_>) -> bool
    requires { ArePartsOf (written raw.now) parts.now }
    ensures { result ≡ keeps_rule V9 (written raw.now) }
{
    match &parts.acceptance {
        Some(acceptance) => {
            leaves::sets_below(acceptance.formula, acceptance.sets)
                && marks_are_below(raw, parts, acceptance.sets)
        }
        None => marks_are_below(raw, parts, 0),
    }
}

/// Whether the rule is kept.
fn keeps<'a>(alloc: Global, rule: Rule, raw: &'a Raw, parts: &Parts<'a>) -> Result<bool, Memory>
    requires { ArePartsOf (written raw.now) parts.now }
    ensures { IfOk result (λ kept. kept ≡ keeps_rule rule (written raw.now)) }
{
    let items = raw.items.as_slice();
    let states = raw.states.as_slice();
    match rule {
        Rule::V1 => Ok(rules::is_version_one(&raw.version)),
        Rule::V2 => Ok(rules::stand_once(items)),
        Rule::V3 => Ok(rules::may_all_be_passed_over(items)),
        Rule::V4 => rules::all_names_agree(alloc, items),
        Rule::V5 => Ok(names_single_states(raw, parts)),
        Rule::V6 => Ok(rules::are_counted(items, parts.after)),
        Rule::V7 => defines_its_aliases(alloc, raw, parts),
        Rule::V8 => Ok(propositions_have_names(raw, parts)),
        Rule::V9 => Ok(sets_are_below(raw, parts)),
        Rule::V10 => rules::numbers_differ(alloc, states, parts.rising),
        Rule::V11 => Ok(parts.sums.one_way),
        Rule::V12 => Ok(parts.sums.letters),
    }
}

/// The first rule that is broken, or `None` exactly where all are kept.
pub(crate) fn first_broken<'a>(
    alloc: Global,
    raw: &'a Raw,
    parts: &Parts<'a>,
) -> Result<Option<Rule>, Memory>
    requires { ArePartsOf (written raw.now) parts.now }
    ensures { IfOk result (λ broken. MatchOption broken (IsValid (written raw.now)) (λ rule. IsFirstBroken rule (written raw.now))) }
{
    'rules: for rule in &RULES {
        if !keeps(alloc, *rule, raw, parts)? {
            return Ok(Some(*rule));
        }
    }
    Ok(None)
}
