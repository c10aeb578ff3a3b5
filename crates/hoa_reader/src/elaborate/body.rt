//! The automaton that is built but for what is moved out of the header, and how both are put together.

ghost use Rattle.std.specs.Prelude.{◌≡◌, IfOk, IsTrue};
ghost use Rattle.aut_core.specs.SymbolicAutomata.{AreSymbolicParts, automaton_of};
ghost use Rattle.aut_core.specs.Deterministic.{GoesOneWay};
ghost use Rattle.hoa_parser.specs.Raw.{written};
ghost use Rattle.hoa_reader.specs.inner.Built.{IsBodyOf, symbolic_of_body};
ghost use Rattle.hoa_reader.specs.inner.Frames.{IsFrameOf};

use crate::elaborate::frame::{Frame, shared_of};
use crate::elaborate::implicit::are_implicit;
use crate::elaborate::links::links_of;
use aut_base::{Formula, Memory, Names, Numbers};
use aut_core::{Automaton, Links};
use hoa_parser::{Items, Raw};
use label_guards::Guards;
use std::alloc::Global;

/// An automaton but for what is moved out of its header. Nothing of it lies in what was read.
#[derive(Drop)]
pub(crate) struct Body {
    pub(crate) starts: Numbers,
    pub(crate) states: u32,
    pub(crate) sets: u32,
    pub(crate) guards: Guards,
    pub(crate) links: Links,
    /// Whether labels are implicit at every state.
    pub(crate) implicit: bool,
}

/// The edges under guards, with starts and counts, and the items of the header. What was read of the body is let go while the edges
/// grow.
pub(crate) fn body_of(alloc: Global, raw: Raw, frame: Frame) -> Result<(Items, Body), Memory>
    requires { IsFrameOf (written raw) frame }
    ensures items { IfOk result (λ made. made.0 ≡ raw.items) }
    ensures body { IfOk result (λ made. IsBodyOf (written raw) made.1) }
{
    let items = raw.items;
    let states = raw.states;
    let mut guards = Guards::new(alloc, frame.names)?;
    let implicit = are_implicit(states.as_slice(), frame.states, frame.names);
    let links = {
        let shared = shared_of(alloc, items.as_slice(), &frame)?;
        links_of(
            alloc,
            &mut guards,
            &shared,
            states,
            frame.states,
            frame.rising,
        )?
    };
    let body = Body {
        starts: frame.starts,
        states: frame.states,
        sets: frame.sets,
        guards,
        links,
        implicit,
    };
    Ok((items, body))
}

/// The automaton of these parts. Where labels are implicit no guard is looked at.
pub(crate) fn automaton(
    alloc: Global,
    names: Names,
    formula: Formula,
    body: Body,
) -> Result<Automaton, Memory>
    requires parts { AreSymbolicParts (symbolic_of_body names formula body) }
    requires letters { IsTrue body.implicit → GoesOneWay (automaton_of (symbolic_of_body names formula body)) }
    ensures { IfOk result (λ core. core ≡ symbolic_of_body names formula body) }
{
    if body.implicit {
        return Automaton::from_letters(
            alloc,
            names,
            body.guards,
            body.states,
            body.starts,
            body.links,
            body.sets,
            formula,
        );
    }
    Automaton::from_parts(
        alloc,
        names,
        body.guards,
        body.states,
        body.starts,
        body.links,
        body.sets,
        formula,
    )
}
