//! Truth functions of a few propositions, by their tables, and operations on tables. Nothing here uses guards.

use aut_base::{Label, Labels, Memory};
use std::alloc::Global;

/// A truth table: bit v is the truth on valuation v. Bit k of v is the truth of proposition k.
pub(crate) type Table = u16;

/// How many valuations so many propositions have: at most four propositions, since a table has 16 bits.
pub(crate) fn valuations(props: u8) -> u16 {
    1u16.wrapping_shl(u32::from(props.min(4)))
}

/// Bit v of a table or of a valuation.
pub(crate) fn bit(bits: u16, place: u16) -> bool {
    bits.wrapping_shr(u32::from(place)) & 1 == 1
}

/// The table with this bit set, if it is to be.
fn with(table: Table, valuation: u16, is_wanted: bool) -> Table {
    if is_wanted {
        return table | 1u16.wrapping_shl(u32::from(valuation));
    }
    table
}

/// The negation.
pub(crate) fn negated(of: Table, props: u8) -> Table {
    !of & u16::MAX.wrapping_shr(16 - u32::from(valuations(props).min(16)))
}

/// The function with one proposition fixed to a value.
pub(crate) fn fixed(of: Table, props: u8, prop: u8, value: bool) -> Table {
    let mask = 1u16.wrapping_shl(u32::from(prop));
    let mut table = 0u16;
    for valuation in 0..valuations(props) {
        let set = if value {
            valuation | mask
        } else {
            valuation & !mask
        };
        table = with(table, valuation, bit(of, set));
    }
    table
}

/// The function with its three propositions renamed: proposition k becomes the one at index k of the list.
pub(crate) fn brought(of: Table, to: [u32; 3]) -> Table {
    let mut table = 0u16;
    for valuation in 0..8u16 {
        table = with(table, valuation, bit(of, before(valuation, to)));
    }
    table
}

/// The valuation of the propositions before the renaming.
fn before(valuation: u16, to: [u32; 3]) -> u16 {
    let mut before = 0u16;
    let mut place = 0u16;
    for new in to {
        before = with(before, place, valuation.wrapping_shr(new) % 2 == 1);
        place = place.saturating_add(1);
    }
    before
}

/// The class of a valuation, if no lesser one is in it, and else no valuation. A class are the valuations on which both functions
/// have the values that they have on this one.
pub(crate) fn class_of(first: Table, second: Table, props: u8, valuation: u16) -> Table {
    let mut class = 0u16;
    for other in 0..valuations(props) {
        let is_alike = bit(first, other) == bit(first, valuation)
            && bit(second, other) == bit(second, valuation);
        class = with(class, other, is_alike);
    }
    if class.trailing_zeros() < u32::from(valuation) {
        return 0;
    }
    class
}

/// The number of classes of valuations that two functions don't distinguish.
pub(crate) fn count_classes(first: Table, second: Table, props: u8) -> u32 {
    let mut count = 0u32;
    for valuation in 0..valuations(props) {
        if class_of(first, second, props, valuation) != 0 {
            count = count.saturating_add(1);
        }
    }
    count
}

/// A label with this table: a disjunction with one conjunction for each valuation on which it is true.
pub(crate) fn label(alloc: Global, of: Table, props: u8) -> Result<Label, Memory> {
    let mut label = Label::False;
    for valuation in 0..valuations(props) {
        if bit(of, valuation) {
            let more = Labels::pair(alloc, label, alone(alloc, valuation, props)?);
            label = Label::Or(Box::new(alloc, more)?);
        }
    }
    Ok(label)
}

/// The label that is true on this valuation alone.
fn alone(alloc: Global, valuation: u16, props: u8) -> Result<Label, Memory> {
    let mut label = Label::True;
    for prop in 0..props {
        let more = Labels::pair(alloc, label, literal(valuation, prop));
        label = Label::And(Box::new(alloc, more)?);
    }
    Ok(label)
}

/// A proposition, or its negation where it doesn't hold.
fn literal(valuation: u16, prop: u8) -> Label {
    if bit(valuation, u16::from(prop)) {
        return Label::Prop(u32::from(prop));
    }
    Label::Negated(u32::from(prop))
}

/// The names in order.
pub(crate) fn names(props: u8) -> &'static [u8] {
    if props < 4 {
        return b"abc";
    }
    b"abcd"
}

/// The names of the propositions that hold, with `-` in place of each other one.
pub(crate) fn names_on(valuation: u16) -> [u8; 4] {
    let mut names = *b"abcd";
    let mut place = 0u16;
    for name in names.iter_mut() {
        if !bit(valuation, place) {
            *name = b'-';
        }
        place = place.saturating_add(1);
    }
    names
}
