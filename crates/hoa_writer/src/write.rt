//! The lines of the text: the header, and the states with their edges.

ghost use Rattle.std.specs.Prelude.{◌≡◌, ◌<◌, ◌≤◌, ◌==◌, ◌++◌, ◌^◌, length, filter, flat_map, codes, IfOk, OnOk};
ghost use Rattle.std.specs.Option.{option_copied};
ghost use Rattle.std.specs.List.{range_with_len};
ghost use Rattle.std.specs.Fmt.{decimal};
ghost use Rattle.aut_base.specs.declared.limit.TheConstants.{MOST_NAMES};
ghost use Rattle.aut_base.specs.Formula.{formula_tree};
ghost use Rattle.aut_base.specs.Text.{line};
ghost use Rattle.hoa_writer.specs.CanonicalText.{formula_text, edge_line, state_lines, header_lines, canonical_text};
ghost use Rattle.hoa_writer.specs.CanonicalWritten.{ReadsBack};
ghost use Rattle.hoa_writer.specs.inner.Lines.{name_line, start_lines, names_line, link_line};
ghost use Rattle.aut_core.specs.SymbolicAutomata.{automaton_of};
ghost use Rattle.label_guards.specs.Store.{Has};

use crate::formula::push_formula;
use crate::number::push_number;
use crate::parts::{push_marks, push_quoted};
use aut_base::{Formula, Memory, Text};
use aut_core::{Automaton, Link};
use label_guards::Guards;
use std::alloc::Global;

// Why so: 'The name of an automaton is printed, as the second line' in docs/DECISIONS.md.
/// The canonical text of an automaton, and of its name if it has one.
pub fn write_text(alloc: Global, a: &Automaton, name: Option<&Text>) -> Result<Text, Memory>
    ensures text { IfOk result (λ text. text ≡ canonical_text (automaton_of a.now) (option_copied name.entry)) }
    ensures reads_back { ReadsBack (canonical_text (automaton_of a.now) (option_copied name.entry)) (automaton_of a.now) (option_copied name.entry) }
{
    reads_back(a, name);
    let mut out = Text::new(alloc);
    push_header(&mut out, a, name)?;
    out.extend(b"--BODY--\n")?;
    push_states(alloc, &mut out, a)?;
    out.extend(b"--END--\n")?;
    Ok(out)
}

/// The canonical text reads back. Nothing is computed: the numbers are bounded by their types.
fn reads_back(a: &Automaton, _name: Option<&Text>)
    ensures { ReadsBack (canonical_text (automaton_of a.now) (option_copied _name.entry)) (automaton_of a.now) (option_copied _name.entry) }
{
    a.well_formedness();
    fits(a.states());
    fits(a.sets());
}

/// A number of 32 bits is below 2^32, as the contract of the round trip asks. Nothing is computed.
fn fits(_number: u32)
    ensures { _number < 2 ^ 32 }
{}

/// Adds the lines before the body.
fn push_header(out: &mut Text, a: &Automaton, name: Option<&Text>) -> Result<(), Memory>
    ensures { OnOk result (out.new ≡ out.old ++ header_lines (automaton_of a.now) (option_copied name.entry)) }
{
    a.well_formedness();
    out.extend(b"HOA: v1\n")?;
    push_name(out, name)?;
    push_numbered(out, b"States: ", a.states())?;
    push_starts(out, a.starts().as_slice())?;
    push_names(out, a.names().as_slice())?;
    push_acceptance(out, a.sets(), a.formula())?;
    out.extend(b"properties: trans-labels explicit-labels trans-acc\n")
}

/// Adds a line of these bytes and a number.
fn push_numbered(out: &mut Text, bytes: &[u8], number: u32) -> Result<(), Memory>
    ensures { OnOk result (out.new ≡ out.old ++ line (bytes.now ++ decimal number)) }
{
    out.extend(bytes)?;
    push_number(out, number)?;
    out.push(b'\n')
}

/// Adds the line of the automaton's name, if it has one.
fn push_name(out: &mut Text, name: Option<&Text>) -> Result<(), Memory>
    ensures { OnOk result (out.new ≡ out.old ++ name_line (option_copied name.entry)) }
{
    match name {
        None => Ok(()),
        Some(name) => {
            out.extend(b"name: ")?;
            push_quoted(out, name.as_bytes())?;
            out.push(b'\n')
        }
    }
}

/// Adds a line for each start.
fn push_starts(out: &mut Text, starts: &[u32]) -> Result<(), Memory>
    ensures { OnOk result (out.new ≡ out.old ++ start_lines starts.now) }
{
    'starts: for start in starts {
        push_numbered(out, b"Start: ", *start)?;
    }
    Ok(())
}

/// Adds the line of the atomic propositions.
fn push_names(out: &mut Text, names: &[Text]) -> Result<(), Memory>
    requires { length names.now ≤ MOST_NAMES }
    ensures { OnOk result (out.new ≡ out.old ++ names_line names.now) }
{
    out.extend(b"AP: ")?;
    push_number(out, names.len() as u32)?;
    'names: for name in names {
        out.push(b' ')?;
        push_quoted(out, name.as_bytes())?;
    }
    out.push(b'\n')
}

/// Adds the line of the acceptance condition.
fn push_acceptance(out: &mut Text, sets: u32, formula: &Formula) -> Result<(), Memory>
    ensures { OnOk result (out.new ≡ out.old ++ line (codes "Acceptance: " ++ (decimal sets ++ (codes " " ++ formula_text (formula_tree formula.now))))) }
{
    out.extend(b"Acceptance: ")?;
    push_number(out, sets)?;
    out.push(b' ')?;
    push_formula(out, formula)?;
    out.push(b'\n')
}

/// Adds the states with their edges.
fn push_states(alloc: Global, out: &mut Text, a: &Automaton) -> Result<(), Memory>
    ensures { OnOk result (out.new ≡ out.old ++ flat_map (state_lines (automaton_of a.now)) (range_with_len 0 a.now.states)) }
{
    'states: for state in 0..a.states() {
        push_numbered(out, b"State: ", state)?;
        push_links(alloc, out, a, state)?;
    }
    Ok(())
}

/// Adds the edges that leave the state.
fn push_links(alloc: Global, out: &mut Text, a: &Automaton, state: u32) -> Result<(), Memory>
    requires { state < a.now.states }
    ensures { OnOk result (out.new ≡ out.old ++ flat_map (edge_line (length a.now.names)) (filter (λ e. e.from == state) (automaton_of a.now).edges)) }
{
    a.well_formedness();
    let links = a.links_of(state);
    'links: for link in links {
        push_link(alloc, out, a.guards(), link)?;
    }
    Ok(())
}

/// Adds the line of an edge.
fn push_link(alloc: Global, out: &mut Text, guards: &Guards, link: &Link) -> Result<(), Memory>
    requires { Has guards.now link.now.guard }
    ensures { OnOk result (out.new ≡ out.old ++ link_line guards.now link.now) }
{
    out.push(b'[')?;
    guards.push_cubes(alloc, out, link.guard)?;
    out.extend(b"] ")?;
    push_number(out, link.to)?;
    push_marks(out, &link.marks)?;
    out.push(b'\n')
}
