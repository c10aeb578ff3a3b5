//! The event of a step, beside the new tree.

/// The least names that were red and green in a step.
#[derive(Clone, Copy, Debug, PartialEq, Eq)]
pub struct Event {
    /// The least name of the old tree whose node is removed.
    pub red: Option<u32>,
    /// The least name whose node survives and whose children together hold all that it holds, so that they are removed.
    pub green: Option<u32>,
}
