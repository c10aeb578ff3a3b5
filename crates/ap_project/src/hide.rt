//! How a name is hidden.

/// How a name is hidden: where a letter is taken to contain it.
#[derive(Clone, Copy, Debug, PartialEq, Eq)]
pub enum Hide {
    /// At each letter it may be absent or present (existential quantification).
    Any,
    /// It is absent from each letter.
    Absent,
    /// It is present in each letter.
    Present,
}
