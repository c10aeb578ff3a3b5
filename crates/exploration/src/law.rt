//! Laws of explorations.

ghost use Rattle.exploration.specs.Turns.{EndsOrMeets, HasOneEnding, HasOneOutcome, HasSomeOutcome};

use crate::system::TransitionSystem;

/// The outcome of an exploration is determined: what it ends with, or the limit that it meets.
pub fn outcome_is_one<S: TransitionSystem>()
    ensures { HasOneOutcome S.Seen }
{}

/// The lists of states and edges with which an exploration ends are determined.
pub fn ending_is_one<S: TransitionSystem>()
    ensures { HasOneEnding S.Seen }
{}

/// An exploration that ends meets no limit.
pub fn ends_or_meets<S: TransitionSystem>()
    ensures { EndsOrMeets S.Seen }
{}

/// Each exploration ends or meets a limit.
pub fn outcome_exists<S: TransitionSystem>()
    ensures { HasSomeOutcome S.Seen }
{}
