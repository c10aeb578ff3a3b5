//! From tokens to an automaton, by recursive descent: one function for each rule of the grammar (HOA v1, Grammar), with
//! the rule in its comment. Each function begins at the token at hand, which the lexer gave last, and ends at the first
//! token that is not its own.

ghost use Rattle.std.specs.Prelude.{◌≡◌, ◌∷◌, [], codes, false, true, OnOk};
ghost use Rattle.hoa_lexer.specs.declared.token.Token.{Token};
ghost use Rattle.hoa_parser.specs.inner.Expecting as part;
ghost use Rattle.hoa_parser.specs.inner.Expecting.{move};
ghost use Rattle.hoa_parser.specs.inner.Parsing.{Abandons, ReadsParts, Uses, reader_state};
ghost use Rattle.hoa_parser.specs.inner.RuleReads.{IsAutomaton};

mod body;
mod condition;
mod cube;
mod item;
mod label;
mod lists;
mod plain;
mod tokens;

use self::body::states;
use self::item::items;
use self::tokens::{advance, word};
use crate::header::{Header, header_named};
use crate::{Raw, ReadFault};
use aut_io::Inputs;
use hoa_lexer::{Lexer, Token};
use std::alloc::Global;

/// Whether an automaton begins with this token: only with `HOA:`.
pub(crate) fn opens(token: &Token) -> bool
    ensures opens { result ≡ true → token.now ≡ Token.HeaderName (codes "HOA") }
    ensures others { result ≡ false → move part.Whole token.now ≡ part.Refuses }
{
    let header = match token {
        Token::HeaderName(name) => header_named(name),
        _ => return false,
    };
    match header {
        Header::Opening => true,
        _ => false,
    }
}

/// Whether this fault, at the token at hand, is `--ABORT--`, which can stand nowhere: it abandons the automaton.
pub(crate) fn abandons(fault: ReadFault, ahead: &Token) -> bool
    ensures yes { result ≡ true → Abandons fault ahead.now }
    ensures no { result ≡ false → Abandons fault ahead.now → ⊥ }
{
    matches!((fault, ahead), (ReadFault::Syntax(_), Token::Abort))
}

// Why so: 'Below that, reading is described by what is still expected' in docs/DECISIONS.md.
/// automaton = "HOA:" IDENTIFIER item* "--BODY--" state* "--END--", up to the token `--END--`, which stays at hand:
/// behind it nothing is read.
pub(crate) fn automaton<I: Inputs>(
    alloc: Global,
    lexer: &mut Lexer,
    inputs: &mut I,
    ahead: &mut Token,
) -> Result<Raw, ReadFault>
    requires unspent { lexer.old.spent ≡ false }
    requires opens { ahead.old ≡ Token.HeaderName (codes "HOA") }
    ensures reads { ReadsParts (part.Whole ∷ []) (part.States ∷ []) IsAutomaton result
        (reader_state lexer.old ahead.old (I.seen inputs.old)) (reader_state lexer.new ahead.new (I.seen inputs.new)) }
    ensures ends { OnOk result (ahead.new ≡ Token.End) }
    ensures uses { OnOk result (Uses lexer.old lexer.new) }
{
    advance(alloc, lexer, inputs, ahead)?;
    let version = word(alloc, lexer, inputs, ahead)?;
    let items = items(alloc, lexer, inputs, ahead)?;
    advance(alloc, lexer, inputs, ahead)?;
    let states = states(alloc, lexer, inputs, ahead)?;
    Ok(Raw {
        version,
        items,
        states,
    })
}
