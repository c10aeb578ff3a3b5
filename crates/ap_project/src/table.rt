//! The guards that were hidden already, by the original guard.

ghost use Rattle.std.specs.Prelude.{◌≡◌, IfSome, OnErr, OnOk, Some};
ghost use Rattle.std.specs.Map.{lookup};
ghost use Rattle.ap_project.specs.inner.HiddenGuards.{IsGuardInserted, same_guard};

use aut_base::Memory;
use indexmap::IndexMap;
use label_guards::Guard;

/// From a guard of the automaton's store to that guard with the proposition hidden.
pub(crate) type Done = IndexMap<Guard, Guard>;

/// The result for this guard, if it was computed already.
pub(crate) fn done_at(done: &Done, g: Guard) -> Option<Guard>
    ensures { IfSome result (λ found. lookup (same_guard g) done.now.entries ≡ Some found) }
{
    match done.get(&g) {
        Some(found) => Some(*found),
        None => None,
    }
}

/// Adds the result for this guard to the table.
pub(crate) fn put_done(done: &mut Done, g: Guard, found: Guard) -> Result<(), Memory>
    ensures { OnOk result (IsGuardInserted done.old.entries done.new.entries g found) }
{
    match done.insert(g, found) {
        Ok(_) => Ok(()),
        Err(_) => Err(Memory),
    }
}
