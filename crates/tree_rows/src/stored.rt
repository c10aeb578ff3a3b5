//! Plain trees in the form in which `safra_trees` stores trees.

use crate::plain::{PlainNode, STATES, is_set, node};
use safra_trees::SafraTree;
use std::alloc::{AllocError, Global};

/// A text that is read from its beginning on, and whether it was so far what was expected.
#[derive(Clone, Copy)]
struct Reading<'a> {
    rest: &'a [u8],
    agrees: bool,
}

impl<'a> Reading<'a> {
    /// Reads these bytes.
    fn bytes(&mut self, bytes: &[u8]) {
        match self.rest.strip_prefix(bytes) {
            Some(rest) => self.rest = rest,
            None => self.agrees = false,
        }
    }

    /// Reads the next number of a list. All are below 10.
    fn number(&mut self, number: usize) {
        if let Some(rest) = self.rest.strip_prefix(b", ") {
            self.rest = rest;
        }
        self.bytes(&[b'0'.saturating_add(number.min(9) as u8)]);
    }
}

/// Whether the stored tree is the plain one, by its debug text: the parent of each node, and for each state the deepest node
/// that has it.
pub(crate) fn is_stored(
    alloc: Global,
    tree: &SafraTree,
    plain: &[PlainNode],
) -> Result<bool, AllocError> {
    let text = format!(in alloc; "{tree:?}")?;
    Ok(is_text(text.as_bytes(), plain))
}

fn is_text(text: &[u8], plain: &[PlainNode]) -> bool {
    let mut reading = Reading {
        rest: text,
        agrees: true,
    };
    reading.bytes(b"SafraTree { parents: Seq { items: [");
    for one in plain {
        if one.holds != 0 {
            reading.number(one.parent);
        }
    }
    reading.bytes(b"] }, states: Seq { items: [");
    for state in 0..STATES {
        if deepest(plain, state).is_some() {
            reading.number(state);
        }
    }
    reading.bytes(b"] }, places: Seq { items: [");
    for state in 0..STATES {
        if let Some(place) = deepest(plain, state) {
            reading.number(place);
        }
    }
    reading.bytes(b"] } }");
    reading.agrees && reading.rest.is_empty()
}

/// The last of the nodes that have a state, which is the deepest.
fn deepest(plain: &[PlainNode], state: usize) -> Option<usize> {
    let mut last = None;
    for name in 0..STATES {
        if is_set(node(plain, name).holds, state) {
            last = Some(name);
        }
    }
    last
}
