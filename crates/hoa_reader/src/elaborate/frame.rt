//! What is described but for edges, names and condition, what edges share, and the condition held apart.

ghost use Rattle.std.specs.Prelude.{◌≡◌, true, filter_map, get_or, map, IfOk};
ghost use Rattle.aut_base.specs.Formula.{formula_tree};
ghost use Rattle.hoa_parser.specs.Raw.{written, written_item};
ghost use Rattle.hoa_reader.specs.Counts.{PassesNone};
ghost use Rattle.hoa_reader.specs.Validity.{IsValid, acceptance_item, alias_item};
ghost use Rattle.hoa_reader.specs.inner.Frames.{IsFrameOf, IsSharedBy};
ghost use Rattle.hoa_reader.specs.inner.Gathered.{ArePartsOf};
ghost use Rattle.hoa_reader.specs.inner.PickedOut.{are_defined, no_acceptance};

use crate::elaborate::aliases::known_aliases;
use crate::elaborate::edges::Shared;
use crate::elaborate::parts::{Parts, acceptance_of, aliases_of};
use crate::elaborate::sizes::{set_count, state_count};
use crate::elaborate::starts::starts_of;
use aut_base::{Formula, Memory, Numbers};
use hoa_parser::{Item, Raw};
use std::alloc::Global;

/// What is described but for edges, names and condition. Nothing of it lies in what was read.
#[derive(Drop)]
pub(crate) struct Frame {
    pub(crate) starts: Numbers,
    pub(crate) states: u32,
    /// Whether the numbers of the states rise.
    pub(crate) rising: bool,
    pub(crate) names: u32,
    pub(crate) sets: u32,
    pub(crate) edges: usize,
}

/// What is described but for edges, names and condition.
pub(crate) fn frame_of(alloc: Global, raw: &Raw, parts: &Parts<'_>) -> Result<Frame, Memory>
    requires valid { IsValid (written raw.now) }
    requires within { PassesNone (written raw.now) }
    requires parts { ArePartsOf (written raw.now) parts.now }
    ensures { IfOk result (IsFrameOf (written raw.now)) }
{
    let sets = set_count(raw, parts);
    let states = state_count(raw, parts) as u32;
    let starts = starts_of(alloc, &parts.starts)?;
    Ok(Frame {
        starts,
        states,
        rising: parts.rising,
        names: parts.names.len() as u32,
        sets,
        edges: parts.sums.edges,
    })
}

/// What edges share, with the aliases of these items.
pub(crate) fn shared_of<'a>(
    alloc: Global,
    items: &'a [Item],
    frame: &Frame,
) -> Result<Shared<'a>, Memory>
    requires { are_defined (filter_map alias_item (map written_item items.now)) ≡ true }
    ensures { IfOk result (IsSharedBy frame.now (map written_item items.now)) }
{
    let defs = aliases_of(alloc, items)?;
    let known = known_aliases(alloc, &defs)?;
    Ok(Shared {
        names: frame.names,
        sets: frame.sets,
        edges: frame.edges,
        defs,
        known,
    })
}

/// The acceptance condition, held apart.
#[tactic(auto, using(aut_base::proofs::trees::FormulaTrees::formula_trees))]
pub(crate) fn condition(alloc: Global, items: &[Item]) -> Result<Formula, Memory>
    ensures { IfOk result (λ formula. formula_tree formula ≡ (get_or (filter_map acceptance_item (map written_item items.now)) 0 no_acceptance).formula) }
{
    match acceptance_of(items) {
        Some(acceptance) => acceptance.formula.copy(alloc),
        None => Ok(Formula::True),
    }
}
