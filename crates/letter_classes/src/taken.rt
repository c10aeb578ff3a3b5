//! The edges from a set of states that a letter satisfies, projected to the parts that a caller needs.

ghost use Rattle.std.specs.Prelude.{◌≡◌, ◌<◌, ◌++◌, All, IfOk, OnOk};
ghost use Rattle.aut_base.specs.Automaton.{LabelledEdge};
ghost use Rattle.aut_core.specs.SymbolicAutomata.{automaton_of, edge_of};
ghost use Rattle.aut_core.specs.Surveys.{edges_from};
ghost use Rattle.label_guards.specs.Store.{Store};
ghost use Rattle.letter_classes.specs.SetClasses.{set_edges};
ghost use Rattle.letter_classes.specs.Taken.{reads_at, taken_of};

use aut_base::{Memory, Seq};
use aut_core::{Automaton, Link};

/// The part of an edge that a caller needs, such as the state to which it leads.
pub trait Taking {
    type Taken: Drop;

    ghost taken: { LabelledEdge → Self.Taken };

    /// The part of the link's edge, which doesn't depend on its label.
    fn take(link: &Link) -> Self::Taken
        ensures { (s : Store) → taken (edge_of s link.now) ≡ result };
}

/// The parts of the edges from these states whose labels are true at the valuation of this number, edge by edge in the
/// order of the states. They replace the items of `list`, whose memory is used again.
pub fn taken_at<T: Taking>(
    list: Seq<T::Taken>,
    a: &Automaton,
    set: &[u32],
    number: u64,
) -> Result<Seq<T::Taken>, Memory>
    requires { All (λ q. q < a.now.states) set.now }
    ensures { IfOk result (λ found. found ≡ taken_of T.taken (reads_at a.now number) (set_edges (automaton_of a.now) set.now)) }
{
    a.well_formedness();
    let mut found = list;
    found.clear();
    'set: for state in set {
        push_taken::<T>(&mut found, a, *state, number)?;
    }
    Ok(found)
}

/// Adds the parts of such edges from this state.
fn push_taken<T: Taking>(
    found: &mut Seq<T::Taken>,
    a: &Automaton,
    state: u32,
    number: u64,
) -> Result<(), Memory>
    requires { state < a.now.states }
    ensures { OnOk result (found.new ≡ found.old ++ taken_of T.taken (reads_at a.now number) (edges_from state (automaton_of a.now).edges)) }
{
    a.well_formedness();
    'links: for link in a.links_of(state) {
        if !a.guards().holds_at(link.guard, number) {
            continue;
        }
        found.push(T::take(link))?;
    }
    Ok(())
}
