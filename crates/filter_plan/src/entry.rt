//! A row of the table of options from which the `clap` command is made.

/// An option.
pub(crate) struct Entry {
    /// The long name, after `--`, which is also the identifier of the option in `clap`'s matches.
    pub(crate) name: &'static str,
    /// The short name, after `-`.
    pub(crate) letter: Option<char>,
    pub(crate) takes_value: bool,
}
