//! The guards of the edges from a set of states.

ghost use Rattle.std.specs.Prelude.{◌<◌, ◌++◌, All, IfOk, OnOk, map};
ghost use Rattle.label_guards.specs.Store.{Has};
ghost use Rattle.letter_classes.specs.SetClasses.{TellTheSame, guards_from};

use aut_base::Memory;
use aut_core::{Automaton, Link};
use label_guards::GuardList;
use std::alloc::Global;

/// The guards of the edges from the states of the set, each once. Many edges have the same guard, so this list is shorter than
/// that of the edges, and is gone through once for each class.
pub(crate) fn set_guards(alloc: Global, a: &Automaton, set: &[u32]) -> Result<GuardList, Memory>
    requires { All (λ q. q < a.now.states) set.now }
    ensures has { IfOk result (All (Has a.now.store)) }
    ensures told { IfOk result (λ list. TellTheSame list (guards_from a.now set.now)) }
{
    a.well_formedness();
    let mut list = GuardList::new(alloc);
    'set: for state in set {
        push_new(&mut list, a.links_of(*state))?;
    }
    Ok(list)
}

/// Adds the guards of the links that aren't there yet.
fn push_new(list: &mut GuardList, links: &[Link]) -> Result<(), Memory>
    ensures { OnOk result (TellTheSame list.new (list.old ++ map (λ l. l.guard) links.now)) }
{
    'links: for link in links {
        if list.as_slice().contains(&link.guard) {
            continue;
        }
        list.push(link.guard)?;
    }
    Ok(())
}
