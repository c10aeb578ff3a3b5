//! From what a text writes to the automaton that it describes.

ghost use Rattle.std.specs.Prelude.{◌≡◌, IfOk};
ghost use Rattle.aut_base.specs.Automaton.{automaton};
ghost use Rattle.hoa_parser.specs.Raw.{written};
ghost use Rattle.hoa_reader.specs.Described.{described};
ghost use Rattle.hoa_reader.specs.Elaborating.{Builds, Elaborates, IsBuilt};
ghost use Rattle.hoa_reader.specs.inner.Frames.{IsFrameOf};

mod aliases;
mod blocks;
mod body;
mod broken;
mod counts;
mod cube;
mod edges;
mod examined;
mod frame;
mod header;
mod implicit;
mod labels;
mod leaves;
mod limits;
mod links;
mod marks;
mod parts;
mod places;
mod rules;
mod shape;
mod sizes;
mod starts;
mod sums;
mod used;
mod written;

use aut_base::{Description, Limit, Memory, Text};
use aut_core::Automaton;
use body::{automaton, body_of};
use edges::edges_of;
use examined::examine;
use frame::{Frame, condition, shared_of};
use header::header_of;
use hoa_parser::Raw;
use std::alloc::Global;

/// The rules that an automaton has to keep, in the order in which they are examined.
#[derive(Clone, Copy, Debug, PartialEq, Eq)]
pub enum Rule {
    V1,
    V2,
    V3,
    V4,
    V5,
    V6,
    V7,
    V8,
    V9,
    V10,
    V11,
    V12,
}

/// Why an automaton that was read has no Description.
#[derive(Clone, Copy, Debug, PartialEq, Eq)]
pub enum ElabFault {
    /// The first rule that is broken.
    Invalid(Rule),
    /// It is valid, and this is the first limit that it passes.
    Limit(Limit),
    /// Want of memory.
    Memory,
}

impl From<Memory> for ElabFault {
    ghost use Rattle.std.specs.Prelude.{◌≡◌};
    ghost use Rattle.hoa_reader.specs.declared.elaborate.ElabFault.{ElabFault};

    ghost from_gives = { λ _ fault. fault ≡ ElabFault.Memory };

    fn from(_want: Memory) -> ElabFault {
        ElabFault::Memory
    }
}

/// An automaton, with the name that is written for it.
#[derive(Drop)]
pub struct Named {
    pub automaton: Automaton,
    pub name: Option<Text>,
}

/// The automaton that is described by what was read.
pub fn describe(alloc: Global, raw: &Raw) -> Result<Description, ElabFault>
    ensures { Elaborates result (written raw.now) }
{
    let frame = examine(alloc, raw)?;
    Ok(description(alloc, raw, frame)?)
}

// Why so: 'An automaton can be built straight from what was read' in docs/DECISIONS.md.
/// The automaton that is described by what was read, with guards in place of labels, and its name. The automaton is the same as
/// `Automaton::from_description` of what `describe` answers, but no description is made. Names and condition are moved, states are let
/// go while edges grow, and all else that was read afterwards, also where it is refused.
pub fn build(alloc: Global, raw: Raw) -> Result<Named, ElabFault>
    ensures { Builds result (written raw) }
{
    let frame = examine(alloc, &raw)?;
    Ok(built(alloc, raw, frame)?)
}

/// The description, where no rule is broken and no limit passed.
fn description(alloc: Global, raw: &Raw, frame: Frame) -> Result<Description, Memory>
    requires { IsFrameOf (written raw.now) frame }
    ensures { IfOk result (λ d. automaton d ≡ described (written raw.now)) }
{
    let items = raw.items.as_slice();
    let texts = parts::names_of(items);
    let names = starts::names_of(alloc, texts)?;
    let formula = condition(alloc, items)?;
    let shared = shared_of(alloc, items, &frame)?;
    let edges = edges_of(alloc, &shared, raw.states.as_slice(), frame.states)?;
    Ok(Description {
        names,
        starts: frame.starts,
        states: frame.states,
        edges,
        sets: frame.sets,
        formula,
    })
}

/// The automaton and its name, where no rule is broken and no limit passed.
fn built(alloc: Global, raw: Raw, frame: Frame) -> Result<Named, Memory>
    requires { IsFrameOf (written raw) frame }
    ensures { IfOk result (IsBuilt (written raw)) }
{
    let (items, body) = body_of(alloc, raw, frame)?;
    let header = header_of(alloc, items);
    let automaton = automaton(alloc, header.names, header.formula, body)?;
    Ok(Named {
        automaton,
        name: header.name,
    })
}
