//! The stages of parsing a pattern.

/// The part of a pattern that is being read.
#[derive(Clone, Copy)]
pub(crate) enum Stage {
    /// In the letters of the stem.
    Stem,
    /// After `cycle`, before the opening brace.
    Brace,
    /// In the letters of the cycle.
    Cycle,
    /// After the closing brace.
    End,
}
