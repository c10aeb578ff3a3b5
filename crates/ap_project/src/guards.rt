//! Hides a proposition in guards; the results are guards over the other propositions.

ghost use Rattle.std.specs.Prelude.{◌≡◌, ◌<◌, ℕ, IfOk, OnOk, length};
ghost use Rattle.ap_project.specs.inner.HiddenGuards.{AreHidden, ArePlacesWithin, IsHiddenGuard, hidden_in};
ghost use Rattle.label_guards.specs.Guards.{IsGuardOf};
ghost use Rattle.label_guards.specs.Store.{Has, Keeps};

use crate::hide::Hide;
use crate::table::{Done, done_at, put_done};
use aut_base::{Memory, Numbers};
use label_guards::{Guard, Guards};
use std::alloc::Global;

/// A proposition to hide.
#[derive(Drop)]
pub(crate) struct Hiding {
    pub(crate) prop: u32,
    pub(crate) how: Hide,
    /// The new index of each proposition among those that remain; for the hidden one any index.
    pub(crate) to: Numbers,
}

/// Hides the proposition in the guard `g` of `given`. The result is a guard of `made`, the store over the other
/// propositions; it is kept in `done`, so each guard is computed once.
pub(crate) fn hidden_guard(
    alloc: Global,
    hiding: &Hiding,
    given: &mut Guards,
    made: &mut Guards,
    done: &mut Done,
    g: Guard,
) -> Result<Guard, Memory>
    requires has { Has given.old g }
    requires prop { hiding.now.prop < given.old.names }
    requires count { length hiding.now.to ≡ given.old.names }
    requires within { ArePlacesWithin made.old.names hiding.now.to }
    requires alone { made.old.names ≡ 0 → given.old.names ≡ 1 }
    requires done { AreHidden given.old made.old hiding.now.how hiding.now.prop hiding.now.to done.old.entries }
    ensures given { OnOk result (Keeps given.old given.new) }
    ensures made { OnOk result (Keeps made.old made.new) }
    ensures done { OnOk result (AreHidden given.new made.new hiding.now.how hiding.now.prop hiding.now.to done.new.entries) }
    ensures hidden { IfOk result (λ h. IsHiddenGuard given.old made.new hiding.now.how hiding.now.prop hiding.now.to g h) }
{
    if let Some(found) = done_at(done, g) {
        return Ok(found);
    }
    let hidden = hide(alloc, given, g, hiding.prop, hiding.how)?;
    let found = made.bring(alloc, given, hidden, &hiding.to)?;
    put_done(done, g, found)?;
    Ok(found)
}

/// Hides the proposition in a guard, within one store over all propositions.
fn hide(alloc: Global, store: &mut Guards, g: Guard, prop: u32, how: Hide) -> Result<Guard, Memory>
    requires has { Has store.old g }
    requires within { prop < store.old.names }
    ensures keeps { Keeps store.old store.new }
    ensures hidden { IfOk result (IsGuardOf store.new (hidden_in store.old how prop g)) }
{
    match how {
        Hide::Any => either(alloc, store, g, prop),
        Hide::Absent => store.fix(alloc, g, prop, false),
        Hide::Present => store.fix(alloc, g, prop, true),
    }
}

/// Existential quantification: the guard that is true where `g` is true with the proposition false or with it true.
fn either(alloc: Global, store: &mut Guards, g: Guard, prop: u32) -> Result<Guard, Memory>
    requires has { Has store.old g }
    requires within { prop < store.old.names }
    ensures keeps { Keeps store.old store.new }
    ensures either { IfOk result (IsGuardOf store.new (hidden_in store.old Hide.Any prop g)) }
{
    let absent = store.fix(alloc, g, prop, false)?;
    let present = store.fix(alloc, g, prop, true)?;
    store.or(absent, present)
}
