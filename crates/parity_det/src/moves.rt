//! The moves that are allowed from a set of states at a valuation.

ghost use Rattle.std.specs.Prelude.{◌≡◌, ◌<◌, All, IfOk};
ghost use Rattle.aut_core.specs.SymbolicAutomata.{automaton_of};
ghost use Rattle.letter_classes.specs.SetClasses.{set_edges};
ghost use Rattle.letter_classes.specs.Taken.{reads_at};
ghost use Rattle.parity_det.specs.inner.Systems.{moves_of};
ghost use Rattle.safra_trees.specs.Events.{IsMoveInRange};

use aut_base::Memory;
use aut_core::{Automaton, Link};
use letter_classes::{Taking, taken_at};
use safra_trees::{Move, Moves};

/// The moves from these states at the valuation of this number: the edges under labels that are true there, accepting where
/// they are in set 0. They replace the items of `list`, whose memory is used again.
pub(crate) fn moves_at(
    list: Moves,
    a: &Automaton,
    set: &[u32],
    number: u64,
) -> Result<Moves, Memory>
    requires { All (λ q. q < a.now.states) set.now }
    ensures moves { IfOk result (λ moves. moves ≡ moves_of (reads_at a.now number) (set_edges (automaton_of a.now) set.now)) }
    ensures within { IfOk result (All (IsMoveInRange a.now.states)) }
{
    a.well_formedness();
    taken_at::<EdgeMoves>(list, a, set, number)
}

/// Of an edge, its move.
struct EdgeMoves;

impl Taking for EdgeMoves {
    ghost use Rattle.parity_laws.specs.Buchi.{move_of};

    type Taken = Move;

    ghost taken = { move_of };

    fn take(link: &Link) -> Move {
        Move {
            from: link.from,
            to: link.to,
            accepting: link.marks.has(0),
        }
    }
}
