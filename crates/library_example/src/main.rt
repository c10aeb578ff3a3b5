//! Prints a word that each automaton of standard input accepts, or `nothing` where it accepts none.
#![tactic(auto)]

ghost use Rattle.std.specs.Prelude.{ℕ, List, IfOk};
ghost use Rattle.aut_core.specs.SymbolicAutomata.{automaton_of};
ghost use Rattle.library_example.specs.Shown.{IsShown};

use aut_base::{Failed, MOST_BYTES, Memory, Text};
use aut_core::Automaton;
use aut_io::{Inputs, Sink};
use hoa_lexer::Lexer;
use hoa_reader::{Front, Raw, describe, read_raw};
use lasso_emptiness::accepted_word;
use real_io::{RealInputs, RealSink, SystemFiles};
use std::alloc::Global;
use word_syntax::print_word;

fn main(rt: HostRuntime) -> Result<(), Failed> {
    let files = SystemFiles::new(&rt);
    let mut inputs = RealInputs::new(rt.alloc(), rt.stdin(), files).or(Err(Failed))?;
    let mut out = RealSink::new(rt.stdout());
    print_words(rt.alloc(), &mut inputs, &mut out).ok_or(Failed)
}

/// Prints a line for each automaton. None where one can't be read or printed.
fn print_words<I: Inputs, W: Sink>(alloc: Global, inputs: &mut I, out: &mut W) -> Option<()>
    requires { (name : List ℕ) → I.may_open name }
{
    inputs.open(&Text::from_bytes(alloc, b"-").ok()?).ok()?;
    let mut lexer = Lexer::new(MOST_BYTES);
    'automata: for _ in 0..u64::MAX {
        match read_raw(alloc, &mut lexer, inputs).ok()? {
            Front::Blank => return Some(()),
            Front::Whole(raw) => out.write(line_of(alloc, &raw)?.as_bytes()).ok()?,
            Front::Aborted => {}
        }
    }
    None
}

fn line_of(alloc: Global, raw: &Raw) -> Option<Text> {
    let a = Automaton::from_description(alloc, &describe(alloc, raw).ok()?).ok()?;
    let mut line = text_of(alloc, &a).ok()?;
    line.push(b'\n').ok()?;
    Some(line)
}

/// The text of a word that the automaton accepts, or `nothing`.
fn text_of(alloc: Global, a: &Automaton) -> Result<Text, Memory>
    ensures { IfOk result (IsShown (automaton_of a.now)) }
{
    match accepted_word(alloc, a)? {
        Some(word) => print_word(alloc, &word, a.names()),
        None => Text::from_bytes(alloc, b"nothing"),
    }
}
