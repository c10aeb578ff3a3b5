//! The rules that speak of a few lines, or of the numbers of states.

ghost use Rattle.std.specs.Prelude.{◌≡◌, ℕ, ◌==◌, ◌^◌, codes, count_by, filter_map, length, nat_le, not, map, IfOk};
ghost use Rattle.std.specs.List.{list_all};
ghost use Rattle.hoa_reader.specs.inner.PickedOut.{is_line, lines_once, numbers};
ghost use Rattle.hoa_reader.specs.inner.Rising.{rises_from};
ghost use Rattle.hoa_parser.specs.Raw.{written_item, written_state};
ghost use Rattle.aut_base.specs.Text.{same_text};
ghost use Rattle.hoa_reader.specs.Validity.{all_differ, begins_with_capital, may_be_passed_over, names_agree, states_item};

use crate::elaborate::places::Places;
use aut_base::{FewNumbers, Memory, Text};
use hoa_lexer::Name;
use hoa_parser::{Item, RawState};
use std::alloc::Global;
use std::collections::BTreeSet;

/// A line that may stand once.
#[derive(Clone, Copy)]
pub(crate) enum Line {
    States,
    Names,
    Acceptance,
    AccName,
    Tool,
    Name,
}

/// Whether the version is `v1`.
pub(crate) fn is_version_one(version: &Name) -> bool
    ensures { result ≡ same_text version.now (codes "v1") }
{
    version.as_bytes() == b"v1".as_slice()
}

/// Whether the item is this line.
fn is_line(item: &Item, line: Line) -> bool
    ensures { result ≡ is_line line (written_item item.now) }
{
    match line {
        Line::States => matches!(item, Item::States(_)),
        Line::Names => matches!(item, Item::Ap { .. }),
        Line::Acceptance => matches!(item, Item::Acceptance { .. }),
        Line::AccName => matches!(item, Item::AccName),
        Line::Tool => matches!(item, Item::Tool),
        Line::Name => matches!(item, Item::Name(_)),
    }
}

/// How many of the items are this line.
fn count(items: &[Item], line: Line) -> usize
    ensures { result ≡ count_by (is_line line) (map written_item items.now) }
{
    let mut count = 0;
    'items: for item in items {
        if !is_line(item, line) {
            continue;
        }
        count += 1;
    }
    count
}

/// Whether the acceptance condition stands once, and each other line for the whole at most once.
pub(crate) fn stand_once(items: &[Item]) -> bool
    ensures { result ≡ lines_once (map written_item items.now) }
{
    count(items, Line::States) <= 1
        && (count(items, Line::Names) <= 1
            && (count(items, Line::Acceptance) == 1
                && (count(items, Line::AccName) <= 1
                    && (count(items, Line::Tool) <= 1 && count(items, Line::Name) <= 1))))
}

/// Whether the name begins with a capital letter.
fn begins_with_capital(name: &Name) -> bool
    ensures { result ≡ begins_with_capital name.now }
{
    match name.as_bytes() {
        [first, ..] => first.is_ascii_uppercase(),
        [] => false,
    }
}

/// Whether none of the names begins with a capital letter.
fn none_begins_with_capital(names: &[Name]) -> bool
    ensures { result ≡ list_all (λ name. not (begins_with_capital name)) names.now }
{
    'names: for name in names {
        if begins_with_capital(name) {
            return false;
        }
    }
    true
}

/// Whether the item may be passed over where it isn't known.
fn may_be_passed_over(item: &Item) -> bool
    ensures { result ≡ may_be_passed_over (written_item item.now) }
{
    match item {
        Item::Properties(words) => none_begins_with_capital(words.as_slice()),
        Item::Other(name) => !begins_with_capital(name),
        _ => true,
    }
}

/// Whether what isn't known may be passed over.
pub(crate) fn may_all_be_passed_over(items: &[Item]) -> bool
    ensures { result ≡ list_all may_be_passed_over (map written_item items.now) }
{
    'items: for item in items {
        if !may_be_passed_over(item) {
            return false;
        }
    }
    true
}

/// Whether all of these differ. Of one alone it takes no memory to see.
pub(crate) fn texts_differ(alloc: Global, texts: &[Text]) -> Result<bool, Memory>
    ensures { IfOk result (λ differ. differ ≡ all_differ same_text texts.now) }
{
    if let [_] = texts {
        return Ok(true);
    }
    let mut seen = Places::new(alloc);
    'texts: for text in texts {
        if !seen.add(text.as_bytes(), ())? {
            return Ok(false);
        }
    }
    Ok(true)
}

/// Whether the numbers of the states rise.
pub(crate) fn numbers_rise(states: &[RawState]) -> bool
    ensures { result ≡ rises_from 0 (numbers (map written_state states.now)) }
{
    let mut least = 0;
    'states: for state in states {
        if u64::from(state.number) < least {
            return false;
        }
        least = u64::from(state.number) + 1;
    }
    true
}

/// Whether no number stands twice, whatever order they stand in.
fn none_repeats(alloc: Global, states: &[RawState]) -> Result<bool, Memory>
    ensures { IfOk result (λ differ. differ ≡ all_differ ◌==◌ (numbers (map written_state states.now))) }
{
    let mut seen = BTreeSet::new(alloc);
    'states: for state in states {
        if !seen.insert(state.number)? {
            return Ok(false);
        }
    }
    Ok(true)
}

// Why so: 'Numbers that rise are looked at first' in docs/DECISIONS.md.
/// Whether all of these differ. Numbers that rise do, which takes no set to see.
pub(crate) fn numbers_differ(
    alloc: Global,
    states: &[RawState],
    rising: bool,
) -> Result<bool, Memory>
    requires { rising ≡ rises_from 0 (numbers (map written_state states.now)) }
    ensures { IfOk result (λ differ. differ ≡ all_differ ◌==◌ (numbers (map written_state states.now))) }
{
    if rising {
        return Ok(true);
    }
    none_repeats(alloc, states)
}

/// Whether the names of an `AP:` line are as many as it says, and differ.
fn names_agree(alloc: Global, item: &Item) -> Result<bool, Memory>
    ensures { IfOk result (λ agree. agree ≡ names_agree (written_item item.now)) }
{
    match item {
        Item::Ap { count, names } => {
            if names.len() != *count as usize {
                return Ok(false);
            }
            texts_differ(alloc, names.as_slice())
        }
        _ => Ok(true),
    }
}

/// Whether the names of each `AP:` line are as many as it says, and differ.
pub(crate) fn all_names_agree(alloc: Global, items: &[Item]) -> Result<bool, Memory>
    ensures { IfOk result (λ agree. agree ≡ list_all names_agree (map written_item items.now)) }
{
    'items: for item in items {
        if !names_agree(alloc, item)? {
            return Ok(false);
        }
    }
    Ok(true)
}

/// Whether each start is one state.
pub(crate) fn start_in_single_states(starts: &[&FewNumbers]) -> bool
    ensures { result ≡ list_all (λ states. length states == 1) (map (λ s. s.now) starts.now) }
{
    'starts: for states in starts {
        if states.len() != 1 {
            return false;
        }
    }
    true
}

/// Whether the number is 2 to the power of the other.
pub(crate) fn is_power(number: usize, exponent: usize) -> bool
    ensures { result ≡ (number == 2 ^ exponent) }
{
    if exponent >= 64 {
        return false;
    }
    number as u64 == 1 << exponent
}

/// Whether each `States:` line has this number or a greater one.
pub(crate) fn are_counted(items: &[Item], after: u64) -> bool
    ensures { result ≡ list_all (nat_le after) (filter_map states_item (map written_item items.now)) }
{
    'items: for item in items {
        let Item::States(count) = item else {
            continue;
        };
        if u64::from(*count) < after {
            return false;
        }
    }
    true
}
