//! The stated outcome of a row.

use crate::ran::Ran;
use aut_base::Text;
use std::alloc::Global;

/// The status, the output and the notes that are stated, and how many bytes are left, where that is stated.
#[derive(Drop)]
pub(crate) struct Stated {
    pub(crate) status: Option<u8>,
    pub(crate) output: Text,
    pub(crate) note: Text,
    pub(crate) left: Option<u32>,
}

impl Stated {
    /// Nothing is stated yet.
    pub(crate) fn new(alloc: Global) -> Stated {
        Stated {
            status: None,
            output: Text::new(alloc),
            note: Text::new(alloc),
            left: None,
        }
    }

    pub(crate) fn has_note(&self) -> bool {
        !self.note.as_bytes().is_empty()
    }

    /// Whether a run has the stated outcome. With `is_mute` its notes may be any.
    pub(crate) fn is_met(&self, ran: Ran, is_mute: bool) -> bool {
        self.status == Some(ran.status)
            && ran.out == self.output.as_bytes()
            && (is_mute || ran.notes == self.note.as_bytes())
            && match self.left {
                Some(left) => left == ran.left,
                None => true,
            }
    }
}
