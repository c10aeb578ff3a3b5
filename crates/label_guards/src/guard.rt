//! The number of a label in a store.

use aut_base::Seq;

/// A label that a store holds, by its number there. It says nothing apart from its store.
#[derive(Clone, Copy, Debug, PartialEq, Eq, Hash)]
pub struct Guard {
    pub(crate) place: usize,
}

/// Guards of one store, in order.
pub type GuardList = Seq<Guard>;
