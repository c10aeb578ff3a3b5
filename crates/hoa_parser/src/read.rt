//! From bytes to one automaton.

ghost use Rattle.std.specs.Prelude.{◌≡◌, ◌≢◌, ◌+◌, ◌-◌, ◌<◌, false, IfOk, OnOk};
ghost use Rattle.hoa_lexer.specs.Moves.{MovesLexer};
ghost use Rattle.hoa_lexer.specs.Reading.{Tells, held_count, unread};
ghost use Rattle.hoa_parser.specs.Reads.{AnswersFront, HoldsBehind, Shows, stop_of_front};

use crate::parse::{abandons, automaton, opens};
use crate::{Raw, ReadFault};
use aut_io::Inputs;
use hoa_lexer::Lexer;
use std::alloc::Global;

/// What stands at the front of a text.
#[derive(Debug, Drop)]
pub enum Front {
    /// Only blanks are left.
    Blank,
    /// An automaton.
    Whole(Raw),
    /// An automaton that `--ABORT--` abandons.
    Aborted,
}

/// Reads one automaton up to and with `--END--`, or `--ABORT--` where it is abandoned, and not one byte more. The lexer may
/// be used on after each answer but a fault.
pub fn read_raw<I: Inputs>(
    alloc: Global,
    lexer: &mut Lexer,
    inputs: &mut I,
) -> Result<Front, ReadFault>
    requires { lexer.old.spent ≡ false }

    // The answer, by the bytes that were not read yet.
    ensures answers { Tells (I.seen inputs.old) (I.seen inputs.new) (λ old new.
        AnswersFront result (lexer.old.since - held_count lexer.old.held) (unread lexer.old.held old) (unread lexer.new.held new)) }
    // The bytes that were taken show it, and the last of them was asked for.
    ensures shown { Tells (I.seen inputs.old) (I.seen inputs.new) (λ old new.
        Shows result (lexer.old.since - held_count lexer.old.held) (unread lexer.old.held old) new) }
    ensures held { HoldsBehind result lexer.new.held }
    ensures spent { OnOk result (lexer.new.spent ≡ false) }

    // An automaton uses at least one byte, also where the inputs don't tell what is left.
    ensures used { IfOk result (λ front. front ≢ Front.Blank
        → lexer.old.taken + held_count lexer.new.held < lexer.new.taken + held_count lexer.old.held) }
    ensures moves { MovesLexer (stop_of_front result) lexer.old lexer.new (I.seen inputs.old) (I.seen inputs.new) }
{
    let Some(mut ahead) = lexer.next(alloc, inputs)? else {
        return Ok(Front::Blank);
    };
    if !opens(&ahead) {
        return Err(ReadFault::Syntax(lexer.offset()));
    }
    match automaton(alloc, lexer, inputs, &mut ahead) {
        Ok(raw) => Ok(Front::Whole(raw)),
        Err(fault) => {
            if abandons(fault, &ahead) {
                Ok(Front::Aborted)
            } else {
                Err(fault)
            }
        }
    }
}
