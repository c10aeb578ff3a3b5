//! The limits of an exploration.

/// The most states that may be reached, and the most classes that they may have together: the sum of their numbers of classes.
#[derive(Clone, Copy, Debug)]
pub struct Limits {
    pub states: u32,
    pub classes: u32,
}
