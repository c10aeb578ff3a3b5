//! The calls, with `None` where their preconditions fail. They stand apart, so that what compares their answers doesn't have to prove
//! anything from their contracts.

ghost use Rattle.std.specs.Bool.{OnTrue};
ghost use Rattle.std.specs.Prelude.{◌<◌, All};

use aut_base::{Label, Letter, Memory, Names, Numbers, Text};
use label_guards::{Brought, Guard, GuardList, Guards};
use row_files::Answer;
use std::alloc::Global;

/// The guard of a label, or `f` where it speaks of other propositions than the store.
pub(crate) fn of_label(store: &mut Guards, label: &Label) -> Result<Guard, Memory> {
    if !label.is_below(store.names() as usize) {
        return Ok(store.never());
    }
    store.of_label(label)
}

/// The calls that make a guard of two guards, or of the first.
#[derive(Clone, Copy)]
pub(crate) enum Join {
    And,
    Or,
    Not,
    /// One proposition is fixed to a value.
    Fix(u32, bool),
}

/// What a call makes of two guards.
pub(crate) fn joined(
    alloc: Global,
    store: &mut Guards,
    join: Join,
    g: Guard,
    h: Guard,
) -> Result<Option<Guard>, Memory> {
    if !store.has(g) || !store.has(h) {
        return Ok(None);
    }
    let made = match join {
        Join::And => store.and(g, h),
        Join::Or => store.or(g, h),
        Join::Not => store.not(g),
        Join::Fix(prop, value) if prop < store.names() => store.fix(alloc, g, prop, value),
        Join::Fix(..) => return Ok(None),
    };
    Ok(Some(made?))
}

/// The guard of the other store, brought alone.
pub(crate) fn bring(
    alloc: Global,
    store: &mut Guards,
    other: &Guards,
    g: Guard,
    to: &Numbers,
) -> Result<Option<Guard>, Memory> {
    if !other.has(g) || to.len() != other.names() as usize || !are_below(to, store.names()) {
        return Ok(None);
    }
    Ok(Some(store.bring(alloc, other, g, to)?))
}

/// The guard of the other store, brought first and then again.
pub(crate) fn bring_twice(
    alloc: Global,
    store: &mut Guards,
    other: &Guards,
    g: Guard,
    to: &Numbers,
) -> Result<Option<Guard>, Memory> {
    if !other.has(g) || to.len() != other.names() as usize || !are_below(to, store.names()) {
        return Ok(None);
    }
    let mut brought = Brought::new(alloc);
    let first = store.bring_more(&mut brought, other, g, to)?;
    let again = store.bring_more(&mut brought, other, g, to)?;
    Ok((first == again).then_some(first))
}

/// Whether all propositions are among so many.
fn are_below(to: &Numbers, names: u32) -> bool
    ensures { OnTrue result (All (λ place. place < names) to.now) }
{
    to.as_slice().iter().all(|place| *place < names)
}

/// Whether the guard holds at the letter, which has the valuation of this number. Both calls that say it have to agree.
pub(crate) fn holds(
    store: &Guards,
    names: &Names,
    g: Guard,
    letter: &Letter,
    number: u64,
) -> Option<bool> {
    if !store.has(g) || names.len() != store.names() as usize {
        return None;
    }
    let holds = store.holds(names, g, letter);
    (store.holds_at(g, number) == holds).then_some(holds)
}

/// The number of some valuation on which the guard is true, if there is one.
pub(crate) fn meeting(store: &Guards, g: Guard) -> Option<u64> {
    if !store.has(g) {
        return None;
    }
    store.meeting(g)
}

/// The least letter at which the guard holds, if there is one.
pub(crate) fn pick(
    alloc: Global,
    store: &Guards,
    names: &Names,
    g: Guard,
) -> Result<Option<Letter>, Memory> {
    if !store.has(g) || names.len() != store.names() as usize {
        return Ok(None);
    }
    store.pick(alloc, names, g)
}

pub(crate) fn is_false(store: &Guards, g: Guard) -> Option<bool> {
    if !store.has(g) {
        return None;
    }
    Some(store.is_false(g))
}

pub(crate) fn same(store: &Guards, g: Guard, h: Guard) -> Option<bool> {
    if !store.has(g) || !store.has(h) {
        return None;
    }
    Some(store.same(g, h))
}

/// The classes of the list, unless there are more than so many.
pub(crate) fn classes(
    alloc: Global,
    store: &mut Guards,
    list: &GuardList,
    most: u32,
) -> Result<Option<GuardList>, Memory> {
    if !list.as_slice().iter().all(|g| store.has(*g)) {
        return Ok(None);
    }
    store.classes(alloc, list, most)
}

/// Adds the text of a guard, if the store has it. Both calls that write it have to agree.
pub(crate) fn add_cubes(
    alloc: Global,
    answer: &mut Answer,
    store: &Guards,
    g: Guard,
) -> Result<(), Memory> {
    if !store.has(g) {
        return Ok(());
    }
    let text = store.cubes(alloc, g)?;
    let mut pushed = Text::new(alloc);
    store.push_cubes(alloc, &mut pushed, g)?;
    answer.add(text.as_bytes());
    if pushed != text {
        answer.add(b" and ");
        answer.add(pushed.as_bytes());
    }
    Ok(())
}
