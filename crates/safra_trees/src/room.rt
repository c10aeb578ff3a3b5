//! The working lists of a step.

use std::alloc::Global;

// Why so: 'A step of a tree fills lists that stay' in docs/DECISIONS.md.
/// The working lists of a step. A caller that takes many steps keeps them from one to the next, which then needs memory for
/// the new tree alone. What they contain before a step has no effect on it.
#[derive(Drop)]
pub struct Scratch {
    /// For each name its number in the order in which nodes claim.
    pub(crate) order: Vec<u32>,
    /// For each state its place, the deepest node that holds it, or the number of nodes where none does.
    pub(crate) places: Vec<u32>,
    /// For each state the name that claims it, or the number of names where none does.
    pub(crate) claims: Vec<u32>,
    /// For each name whether it claims a state.
    pub(crate) own: Vec<bool>,
    /// For each name the node that owns its states.
    pub(crate) owners: Vec<u32>,
    /// For each name whether it survives.
    pub(crate) stay: Vec<bool>,
    /// For each name the number of surviving names below it.
    pub(crate) ranks: Vec<u8>,
}

impl Scratch {
    /// Empty lists. Takes no memory.
    pub fn new(alloc: Global) -> Scratch {
        Scratch {
            order: Vec::new(alloc),
            places: Vec::new(alloc),
            claims: Vec::new(alloc),
            own: Vec::new(alloc),
            owners: Vec::new(alloc),
            stay: Vec::new(alloc),
            ranks: Vec::new(alloc),
        }
    }
}
