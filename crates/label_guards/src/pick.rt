//! The least letter that meets a guard.

ghost use Rattle.std.specs.Prelude.{◌≡◌, ◌<◌, ◌≤◌, ◌^◌, ℕ, Bool, List, IfOk, IfSome, MatchOption, OnOk, if◌then◌else◌, length};
ghost use Rattle.std.specs.FinSet as set;
ghost use Rattle.aut_base.specs.declared.limit.TheConstants.{MOST_NAMES};
ghost use Rattle.aut_base.specs.Valuation.{letter_of};
ghost use Rattle.label_guards.specs.Guards.{IsNeverMet};
ghost use Rattle.label_guards.specs.Leasts.{IsLeastAt, IsLeastLetter, IsLeastOf, bits_of, lesser_of};
ghost use Rattle.label_guards.specs.Store.{Has, HasPlace};
ghost use Rattle.label_guards.specs.Tables.{AreDone};

use crate::guard::Guard;
use crate::guards::Guards;
use crate::table::{Results, done_at, put_done};
use aut_base::{Letter, Memory, Names, Text};
use std::alloc::Global;

impl Guards {
    /// The letter of the least valuation that meets the guard, by the number of the valuation, or `None` where
    /// none meets it. Each node of the guard is visited once.
    pub fn pick(&self, alloc: Global, names: &Names, g: Guard) -> Result<Option<Letter>, Memory>
        requires has { Has self.now g }
        requires names { length names.now ≡ self.now.names }
        ensures { IfOk result (λ found. MatchOption found (IsNeverMet self.now g) (IsLeastLetter self.now names.now g)) }
    {
        match self.least(alloc, g)? {
            Some(number) => Ok(Some(letter_at(alloc, names, number)?)),
            None => Ok(None),
        }
    }

    /// The number of the least valuation that meets a place, where the table has what was found so far.
    pub(crate) fn least_with(
        &self,
        leasts: &mut Results<Option<u64>>,
        place: usize,
    ) -> Result<Option<u64>, Memory>
        requires has { HasPlace self.now place }
        requires done { AreDone (IsLeastOf self.now) leasts.old.entries }
        ensures done { AreDone (IsLeastOf self.now) leasts.new.entries }
        ensures least { IfOk result (IsLeastAt self.now place) }
    {
        self.reduced();
        if place == 0 {
            return Ok(None);
        }
        if place == 1 {
            return Ok(Some(0));
        }
        if let Some(found) = done_at(leasts, place) {
            return Ok(found);
        }
        let node = self.node_at(place);
        let low = self.least_with(leasts, node.low)?;
        let high = self.least_with(leasts, node.high)?;
        let found = lesser(node.prop, low, high);
        put_done(leasts, place, found)?;
        Ok(found)
    }
}

/// The lesser of two numbers, where the proposition holds in the second.
fn lesser(prop: u32, low: Option<u64>, high: Option<u64>) -> Option<u64>
    requires prop { prop < MOST_NAMES }
    requires high { IfSome high (λ number. number < 2 ^ MOST_NAMES) }
    ensures { result ≡ lesser_of (2 ^ prop) low high }
{
    match (low, high) {
        (None, None) => None,
        (None, Some(high)) => Some(high + weight(prop)),
        (Some(low), None) => Some(low),
        (Some(low), Some(high)) => Some(low.min(high + weight(prop))),
    }
}

/// What a proposition adds to the number of a valuation.
pub(crate) fn weight(prop: u32) -> u64
    requires { prop < MOST_NAMES }
    ensures weight { result ≡ 2 ^ prop }
    ensures small { result < 2 ^ MOST_NAMES }
{
    1 << prop
}

/// The letter of a valuation, by its number.
fn letter_at(alloc: Global, names: &Names, number: u64) -> Result<Letter, Memory>
    ensures { IfOk result (λ letter. letter ≡ letter_of names.now (bits_of (length names.now) number)) }
{
    let mut letter = Letter::new(alloc);
    let mut rest = number;
    'names: for name in names.as_slice() {
        add_if(alloc, &mut letter, name, rest % 2 == 1)?;
        rest /= 2;
    }
    Ok(letter)
}

/// Adds the name, if its proposition holds.
fn add_if(alloc: Global, letter: &mut Letter, name: &Text, holds: bool) -> Result<(), Memory>
    ensures { OnOk result (letter.new ≡ (if holds then set.insert letter.old name.now else letter.old)) }
{
    if !holds {
        return Ok(());
    }
    letter.add(name.copy(alloc)?)
}
