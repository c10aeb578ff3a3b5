//! The line of figures of an automaton.

ghost use Rattle.std.specs.Prelude.{◌≡◌, ◌++◌, IfOk, IfSome, OnOk, length};
ghost use Rattle.std.specs.Fmt.{decimal};
ghost use Rattle.aut_core.specs.SymbolicAutomata.{automaton_of};
ghost use Rattle.aut_ops.specs.Trimming.{IsReachedSize};
ghost use Rattle.autfilt_run.specs.Figures.{IsLine, IsShownAs, ShowsReached};
ghost use Rattle.filter_plan.specs.declared.format.Piece.TheVariants as piece;

use aut_base::{Memory, Text};
use aut_core::Automaton;
use aut_ops::{ReachedSize, reached_size};
use filter_plan::{Piece, StatsText};
use lasso_emptiness::accepted_word;
use std::alloc::Global;
use word_syntax::print_word;

/// The line that this format of `--stats` asks for.
pub(crate) fn line_of(alloc: Global, format: &StatsText, a: &Automaton) -> Result<Text, Memory>
    ensures { IfOk result (IsLine format.now (automaton_of a.now)) }
{
    let mut line = Text::new(alloc);
    let mut counted = None;
    'pieces: for piece in format.as_slice() {
        let shown = piece_text(alloc, *piece, a, &mut counted)?;
        line.extend(shown.as_bytes())?;
    }
    line.push(b'\n')?;
    Ok(line)
}

/// The text of one piece of the format. The reached part is counted once for a whole line.
fn piece_text(
    alloc: Global,
    piece: Piece,
    a: &Automaton,
    counted: &mut Option<ReachedSize>,
) -> Result<Text, Memory>
    requires { IfSome counted.old (IsReachedSize (automaton_of a.now)) }
    ensures counted { IfSome counted.new (IsReachedSize (automaton_of a.now)) }
    ensures shown { IfOk result (IsShownAs piece (automaton_of a.now)) }
{
    match piece {
        Piece::Byte(byte) => Text::from_bytes(alloc, &[byte]),
        Piece::States => states_text(alloc, a, counted),
        Piece::Edges => edges_text(alloc, a, counted),
        Piece::Sets => number_text(alloc, u64::from(a.sets())),
        Piece::Word => accepted_text(alloc, a),
    }
}

/// The number of states that are reached.
fn states_text(
    alloc: Global,
    a: &Automaton,
    counted: &mut Option<ReachedSize>,
) -> Result<Text, Memory>
    requires { IfSome counted.old (IsReachedSize (automaton_of a.now)) }
    ensures counted { IfSome counted.new (IsReachedSize (automaton_of a.now)) }
    ensures shown { IfOk result (ShowsReached (λ t. t.states) (automaton_of a.now)) }
{
    let size = size_of(alloc, a, counted)?;
    number_text(alloc, u64::from(size.states))
}

/// The number of edges of the states that are reached, without those whose labels are false.
fn edges_text(
    alloc: Global,
    a: &Automaton,
    counted: &mut Option<ReachedSize>,
) -> Result<Text, Memory>
    requires { IfSome counted.old (IsReachedSize (automaton_of a.now)) }
    ensures counted { IfSome counted.new (IsReachedSize (automaton_of a.now)) }
    ensures shown { IfOk result (ShowsReached (λ t. length t.edges) (automaton_of a.now)) }
{
    let size = size_of(alloc, a, counted)?;
    number_text(alloc, size.edges as u64)
}

/// The numbers of reached states and edges, counted on the first call for a line.
fn size_of(
    alloc: Global,
    a: &Automaton,
    counted: &mut Option<ReachedSize>,
) -> Result<ReachedSize, Memory>
    requires { IfSome counted.old (IsReachedSize (automaton_of a.now)) }
    ensures counted { IfSome counted.new (IsReachedSize (automaton_of a.now)) }
    ensures size { IfOk result (IsReachedSize (automaton_of a.now)) }
{
    if let Some(size) = *counted {
        return Ok(size);
    }
    let size = reached_size(alloc, a)?;
    *counted = Some(size);
    Ok(size)
}

/// A word that is accepted, or nothing where none is.
fn accepted_text(alloc: Global, a: &Automaton) -> Result<Text, Memory>
    ensures { IfOk result (IsShownAs piece.Word (automaton_of a.now)) }
{
    match accepted_word(alloc, a)? {
        Some(word) => print_word(alloc, &word, a.names()),
        None => Ok(Text::new(alloc)),
    }
}

/// A number in decimal digits.
fn number_text(alloc: Global, number: u64) -> Result<Text, Memory>
    ensures { IfOk result (λ text. text ≡ decimal number) }
{
    let mut text = Text::new(alloc);
    text.push_decimal(number)?;
    Ok(text)
}
