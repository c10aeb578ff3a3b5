//! A table of the results of one call, by the places that it went through.

ghost use Rattle.std.specs.Prelude.{◌≡◌, IfSome, OnErr, OnOk, Some, nat_eq};
ghost use Rattle.std.specs.Map.{lookup};
ghost use Rattle.label_guards.specs.Tables.{IsResultInserted};

use aut_base::Memory;
use std::collections::HashMap;

/// The place of a result, by the place that it is of.
pub(crate) type Done = Results<usize>;

/// A result, by the place that it is of.
pub(crate) type Results<V> = HashMap<usize, V>;

/// The result of this place, if it is there.
pub(crate) fn done_at<V: Copy>(done: &Results<V>, place: usize) -> Option<V>
    ensures { IfSome result (λ found. lookup (nat_eq place) done.now.entries ≡ Some found) }
{
    match done.get(&place) {
        Some(found) => Some(*found),
        None => None,
    }
}

/// Puts a result into the table.
pub(crate) fn put_done<V: Drop>(done: &mut Results<V>, place: usize, found: V) -> Result<(), Memory>
    ensures ok { OnOk result (IsResultInserted done.old.entries done.new.entries place found) }
    ensures err { OnErr result (done.new.entries ≡ done.old.entries) }
{
    match done.insert(place, found) {
        Ok(_) => Ok(()),
        Err(_) => Err(Memory),
    }
}
