//! A cache of the classes of letters, by list of guards.

ghost use Rattle.std.specs.Prelude.{◌≡◌, ◌<◌, ◌≤◌, All, IfOk, MatchOption, OnErr, OnOk, length};
ghost use Rattle.label_guards.specs.ClassLeasts.{class_leasts, labels_in};
ghost use Rattle.label_guards.specs.Store.{Has, Keeps};
ghost use Rattle.letter_classes.specs.Known.{AreClassesKnown, IsKnown, AreClassesInserted};

use aut_base::Memory;
use label_guards::{Guard, GuardList, Guards};
use std::alloc::Global;
use std::collections::HashMap;

/// For each list of guards the guards of its classes.
pub(crate) type Known = HashMap<GuardList, GuardList>;

/// The most guards of a list whose classes are kept. Longer lists seldom occur again, and together they might take far more memory
/// than the automaton that is made.
const MOST_KEPT: usize = 256;

/// The classes of the list: from the cache, or else computed.
pub(crate) fn known_classes(
    alloc: Global,
    guards: &mut Guards,
    known: &mut Known,
    list: GuardList,
    most: u32,
) -> Result<Option<Vec<Guard>>, Memory>
    requires has { All (Has guards.old) list }
    requires known { AreClassesKnown guards.old known.old.entries }
    ensures keeps { Keeps guards.old guards.new }
    ensures known { AreClassesKnown guards.new known.new.entries }
    ensures classes { IfOk result (λ found. MatchOption found (most < length (class_leasts guards.old.names (labels_in guards.old list))) (λ cs. IsKnown guards.new list cs.items)) }
    ensures few { IfOk result (λ found. MatchOption found (Unit {0}) (λ cs. length cs.items ≤ most)) }
{
    if let Some(classes) = known.get(&list) {
        if classes.len() > most as usize {
            return Ok(None);
        }
        let copy = Vec::from_slice(alloc, classes.as_slice())?;
        return Ok(Some(copy));
    }
    new_classes(alloc, guards, known, list, most)
}

/// Computes the classes of the list, and keeps them unless there are more than `most`.
fn new_classes(
    alloc: Global,
    guards: &mut Guards,
    known: &mut Known,
    list: GuardList,
    most: u32,
) -> Result<Option<Vec<Guard>>, Memory>
    requires has { All (Has guards.old) list }
    requires known { AreClassesKnown guards.old known.old.entries }
    ensures keeps { Keeps guards.old guards.new }
    ensures known { AreClassesKnown guards.new known.new.entries }
    ensures classes { IfOk result (λ found. MatchOption found (most < length (class_leasts guards.old.names (labels_in guards.old list))) (λ cs. IsKnown guards.new list cs.items)) }
    ensures few { IfOk result (λ found. MatchOption found (Unit {0}) (λ cs. length cs.items ≤ most)) }
{
    let Some(made) = guards.classes(alloc, &list, most)? else {
        return Ok(None);
    };
    if list.len() > MOST_KEPT {
        return Ok(Some(made.into_vec()));
    }
    let found = Vec::from_slice(alloc, made.as_slice())?;
    put(known, list, made)?;
    Ok(Some(found))
}

/// Keeps the classes of a list.
fn put(known: &mut Known, list: GuardList, classes: GuardList) -> Result<(), Memory>
    ensures ok { OnOk result (AreClassesInserted known.old.entries known.new.entries list classes) }
    ensures err { OnErr result (known.new.entries ≡ known.old.entries) }
{
    match known.insert(list, classes) {
        Ok(_) => Ok(()),
        Err(_) => Err(Memory),
    }
}
