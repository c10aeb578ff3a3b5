//! A list in blocks, so that what is done with can be let go.

ghost use Rattle.std.specs.Prelude.{◌≡◌, ◌<◌, ◌≤◌, [], ◌∷◌, ◌++◌, flat_map, length, IfOk, MatchOption, OnOk};
ghost use Rattle.hoa_reader.specs.declared.elaborate.blocks.TheConstants.{BLOCK};

use aut_base::{Memory, Seq};
use std::alloc::Global;
use std::marker::Model;

/// So many items are in a block, and in the first at most. Of edges these are 160 kB, of states some more, which the allocator gives
/// back to the system at once.
pub(crate) const BLOCK: usize = 4_096;

/// Items in order, in blocks, so that who takes one after the other lets each go by itself. What is short is one block. Contracts see
/// the list of the blocks.
#[derive(Drop)]
pub(crate) struct Blocks<T> {
    first: Option<Seq<T>>,
    /// The others, the last of them first.
    others: Vec<Seq<T>>,
}

impl<T> Model for Blocks<T> {
    ghost use Rattle.std.specs.Prelude.{List, ◌++◌, option_to_list, reverse};

    ghost Value = { List (List T) };

    ghost view = { λ b. option_to_list b.first ++ reverse b.others.items };
}

impl<T: Drop> Blocks<T> {
    /// The items in blocks.
    pub(crate) fn new(alloc: Global, items: Seq<T>) -> Result<Blocks<T>, Memory>
        ensures { IfOk result (λ blocks. flat_map (λ block. block) blocks ≡ items) }
    {
        let mut first = items.into_vec();
        let mut others = Vec::new(alloc);
        'cuts: while first.len() > BLOCK {
            others.push(last_of(&mut first)?)?;
        }
        Ok(Blocks {
            first: Some(Seq::from_vec(first)),
            others,
        })
    }

    /// The next block, or `None` exactly where none is left.
    pub(crate) fn next(&mut self) -> Option<Seq<T>>
        ensures { MatchOption result (self.old ≡ []) (λ block. self.old ≡ block ∷ self.new) }
    {
        match self.first.take() {
            Some(block) => Some(block),
            None => self.others.pop(),
        }
    }
}

/// The last block of the items, cut off, with the room that it took.
fn last_of<T: Drop>(items: &mut Vec<T>) -> Result<Seq<T>, Memory>
    requires { BLOCK ≤ length items.old.items }
    ensures shorter { OnOk result (length items.new.items < length items.old.items) }
    ensures block { IfOk result (λ block. items.old.items ≡ items.new.items ++ block) }
{
    let block = items.split_off(items.len() - BLOCK)?;
    items.shrink_to_fit();
    Ok(Seq::from_vec(block))
}
