//! The limits of a run.

ghost use Rattle.aut_base.specs.Limits.{LimitsInFigures};

/// Which limit was passed.
#[derive(Clone, Copy, Debug, PartialEq, Eq)]
pub enum Limit {
    Names,
    Sets,
    States,
    Edges,
    Aliases,
    Depth,
    Bytes,
    Terms,
    BuchiStates,
    Trees,
    Nodes,
    Classes,
    Subsets,
    Pairs,
}

/// The most names of an automaton that is read.
pub const MOST_NAMES: u32 = 32;

/// The most acceptance sets of an automaton that is read.
pub const MOST_SETS: u32 = 512;

/// The most states of an automaton that is read.
pub const MOST_STATES: u32 = 100_000;

/// The most edges of an automaton that is read, those with implicit labels included.
pub const MOST_EDGES: u32 = 1_000_000;

/// The most that labels may count once their aliases are replaced: the height of the highest, and the weight of all of them in
/// units of 8,192 (docs/format.md, Limits).
pub const MOST_ALIASES: u32 = 2_048;

/// The most `(` and `!` of a label or an acceptance condition that may be open at once.
pub const MOST_DEPTH: u32 = 512;

/// The most bytes that a run takes.
pub const MOST_BYTES: u64 = 1 << 40;

/// The most terms of an acceptance condition that is brought to disjunctive normal form. Its literals, of all terms together, may
/// be 1,024 times as many.
pub const MOST_TERMS: u64 = 1_024;

/// The most states of a Büchi automaton that is made.
pub const MOST_BUCHI_STATES: u32 = 4_096;

/// The most Safra trees that determinisation may reach.
pub const MOST_TREES: u32 = 32_768;

/// The most nodes of a Safra tree.
pub const MOST_NODES: u32 = 100;

/// The most classes of letters of all Safra trees, or of all sets of states, that are reached, added up.
pub const MOST_CLASSES: u32 = 2_000_000;

/// The most sets of states that the subset construction of a monitor may reach.
pub const MOST_SUBSETS: u32 = 32_768;

/// The most pairs of states that a product may reach.
pub const MOST_PAIRS: u32 = 1_000_000;

/// The limits in figures.
pub fn limits_in_figures()
    ensures { LimitsInFigures }
{}
