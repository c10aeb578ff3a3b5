//! Verdicts on a condition, by the edges of a component.

use crate::side::SetLiteral;

/// What all edges of a component together decide about a condition.
#[derive(Clone, Copy)]
pub(crate) enum Verdict {
    /// Together they meet it.
    Met,
    /// No cycle of some of them meets it.
    Never,
    /// Together they don't, since some edge violates the `Fin` of this set literal; a cycle without such edges may meet it.
    Open(SetLiteral),
}
