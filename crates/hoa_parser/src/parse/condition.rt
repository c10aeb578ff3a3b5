//! Acceptance conditions.

ghost use Rattle.std.specs.Prelude.{◌≡◌, ◌≢◌, ◌≤◌, ◌∷◌, [], false, OnOk};
ghost use Rattle.hoa_lexer.specs.declared.token.Token.{Token};
ghost use Rattle.hoa_parser.specs.inner.Expecting as part;
ghost use Rattle.hoa_parser.specs.inner.Expecting.{condition_parts, set_parts};
ghost use Rattle.hoa_parser.specs.inner.Parsing.{ReadsParts, Uses, reader_state};
ghost use Rattle.hoa_parser.specs.inner.RuleReads.{IsAndFatom, IsAndFatoms, IsCondition, IsFand, IsFatom, IsMaybeBang, IsSet, sign_at, sign_of, IsOrFand, IsOrFands};
ghost use Rattle.aut_base.specs.Formula.{formula_tree};

use super::tokens::{advance, closing_paren, number, opening_paren, refused};
use crate::ReadFault;
use aut_base::{Formula, Formulas, MOST_DEPTH};
use aut_io::Inputs;
use hoa_lexer::{Lexer, Name, Token};
use std::alloc::Global;

/// formula = fand ("|" fand)*, where `depth` of `(` are open
#[cycle(condition)]
pub(super) fn condition<I: Inputs>(
    alloc: Global,
    lexer: &mut Lexer,
    inputs: &mut I,
    ahead: &mut Token,
    depth: u32,
) -> Result<Formula, ReadFault>
    requires unspent { lexer.old.spent ≡ false }
    requires depth { depth ≤ MOST_DEPTH }
    ensures reads { ReadsParts (condition_parts depth) [] (IsCondition depth) result
        (reader_state lexer.old ahead.old (I.seen inputs.old)) (reader_state lexer.new ahead.new (I.seen inputs.new)) }
{
    let first = fand(alloc, lexer, inputs, ahead, depth)?;
    or_fands(alloc, lexer, inputs, ahead, depth, first)
}

/// ("|" fand)*, behind a first one
#[cycle(condition)]
fn or_fands<I: Inputs>(
    alloc: Global,
    lexer: &mut Lexer,
    inputs: &mut I,
    ahead: &mut Token,
    depth: u32,
    first: Formula,
) -> Result<Formula, ReadFault>
    requires unspent { lexer.old.spent ≡ false }
    requires depth { depth ≤ MOST_DEPTH }
    ensures reads { ReadsParts (part.Conjunctions depth ∷ []) [] (IsOrFands depth (formula_tree first)) result
        (reader_state lexer.old ahead.old (I.seen inputs.old)) (reader_state lexer.new ahead.new (I.seen inputs.new)) }
{
    match ahead {
        Token::Bar => {}
        _ => return Ok(first),
    }
    let second = or_fand(alloc, lexer, inputs, ahead, depth)?;
    let mut parts = Formulas::pair(alloc, first, second)?;
    'fands: loop {
        match ahead {
            Token::Bar => {}
            _ => return Ok(Formula::Or(parts)),
        }
        let next = or_fand(alloc, lexer, inputs, ahead, depth)?;
        parts.push(next)?;
    }
}

/// "|" fand
#[cycle(condition)]
fn or_fand<I: Inputs>(
    alloc: Global,
    lexer: &mut Lexer,
    inputs: &mut I,
    ahead: &mut Token,
    depth: u32,
) -> Result<Formula, ReadFault>
    requires unspent { lexer.old.spent ≡ false }
    requires bar { ahead.old ≡ Token.Bar }
    requires depth { depth ≤ MOST_DEPTH }
    ensures reads { ReadsParts (part.Conjunctions depth ∷ []) (part.Conjunctions depth ∷ []) (IsOrFand depth) result
        (reader_state lexer.old ahead.old (I.seen inputs.old)) (reader_state lexer.new ahead.new (I.seen inputs.new)) }
    ensures uses { OnOk result (Uses lexer.old lexer.new) }
{
    advance(alloc, lexer, inputs, ahead)?;
    fand(alloc, lexer, inputs, ahead, depth)
}

/// fand = fatom ("&" fatom)*
#[cycle(condition)]
fn fand<I: Inputs>(
    alloc: Global,
    lexer: &mut Lexer,
    inputs: &mut I,
    ahead: &mut Token,
    depth: u32,
) -> Result<Formula, ReadFault>
    requires unspent { lexer.old.spent ≡ false }
    requires depth { depth ≤ MOST_DEPTH }
    ensures reads { ReadsParts (part.Atom depth ∷ part.Atoms depth ∷ []) [] (IsFand depth) result
        (reader_state lexer.old ahead.old (I.seen inputs.old)) (reader_state lexer.new ahead.new (I.seen inputs.new)) }
{
    let first = fatom(alloc, lexer, inputs, ahead, depth)?;
    and_fatoms(alloc, lexer, inputs, ahead, depth, first)
}

/// ("&" fatom)*, behind a first one
#[cycle(condition)]
fn and_fatoms<I: Inputs>(
    alloc: Global,
    lexer: &mut Lexer,
    inputs: &mut I,
    ahead: &mut Token,
    depth: u32,
    first: Formula,
) -> Result<Formula, ReadFault>
    requires unspent { lexer.old.spent ≡ false }
    requires depth { depth ≤ MOST_DEPTH }
    ensures reads { ReadsParts (part.Atoms depth ∷ []) [] (IsAndFatoms depth (formula_tree first)) result
        (reader_state lexer.old ahead.old (I.seen inputs.old)) (reader_state lexer.new ahead.new (I.seen inputs.new)) }
{
    match ahead {
        Token::Amp => {}
        _ => return Ok(first),
    }
    let second = and_fatom(alloc, lexer, inputs, ahead, depth)?;
    let mut parts = Formulas::pair(alloc, first, second)?;
    'fatoms: loop {
        match ahead {
            Token::Amp => {}
            _ => return Ok(Formula::And(parts)),
        }
        let next = and_fatom(alloc, lexer, inputs, ahead, depth)?;
        parts.push(next)?;
    }
}

/// "&" fatom
#[cycle(condition)]
fn and_fatom<I: Inputs>(
    alloc: Global,
    lexer: &mut Lexer,
    inputs: &mut I,
    ahead: &mut Token,
    depth: u32,
) -> Result<Formula, ReadFault>
    requires unspent { lexer.old.spent ≡ false }
    requires amp { ahead.old ≡ Token.Amp }
    requires depth { depth ≤ MOST_DEPTH }
    ensures reads { ReadsParts (part.Atoms depth ∷ []) (part.Atoms depth ∷ []) (IsAndFatom depth) result
        (reader_state lexer.old ahead.old (I.seen inputs.old)) (reader_state lexer.new ahead.new (I.seen inputs.new)) }
    ensures uses { OnOk result (Uses lexer.old lexer.new) }
{
    advance(alloc, lexer, inputs, ahead)?;
    fatom(alloc, lexer, inputs, ahead, depth)
}

/// fatom = "t" | "f" | ("Inf" | "Fin") "(" "!"? INT ")" | "(" formula ")"
#[cycle(condition)]
fn fatom<I: Inputs>(
    alloc: Global,
    lexer: &mut Lexer,
    inputs: &mut I,
    ahead: &mut Token,
    depth: u32,
) -> Result<Formula, ReadFault>
    requires unspent { lexer.old.spent ≡ false }
    requires depth { depth ≤ MOST_DEPTH }
    ensures reads { ReadsParts (part.Atom depth ∷ []) [] (IsFatom depth) result
        (reader_state lexer.old ahead.old (I.seen inputs.old)) (reader_state lexer.new ahead.new (I.seen inputs.new)) }
{
    match ahead {
        Token::LeftParen => group(alloc, lexer, inputs, ahead, depth),
        _ => atom(alloc, lexer, inputs, ahead, depth),
    }
}

/// "(" formula ")"
#[cycle(condition)]
fn group<I: Inputs>(
    alloc: Global,
    lexer: &mut Lexer,
    inputs: &mut I,
    ahead: &mut Token,
    depth: u32,
) -> Result<Formula, ReadFault>
    requires unspent { lexer.old.spent ≡ false }
    requires paren { ahead.old ≡ Token.LeftParen }
    requires depth { depth ≤ MOST_DEPTH }
    ensures reads { ReadsParts (part.Atom depth ∷ []) [] (IsFatom depth) result
        (reader_state lexer.old ahead.old (I.seen inputs.old)) (reader_state lexer.new ahead.new (I.seen inputs.new)) }
{
    if depth >= MOST_DEPTH {
        return Err(ReadFault::Depth);
    }
    advance(alloc, lexer, inputs, ahead)?;
    let inner = condition(alloc, lexer, inputs, ahead, depth + 1)?;
    closing_paren(alloc, lexer, inputs, ahead)?;
    Ok(inner)
}

/// What a word says in a condition.
#[derive(Clone, Copy)]
pub(crate) enum Sign {
    True,
    False,
    Inf,
    Fin,
}

/// What the token says in a condition, if anything.
fn sign_at(token: &Token) -> Option<Sign>
    ensures { result ≡ sign_at token.now }
{
    match token {
        Token::Identifier(word) => sign_named(word),
        _ => None,
    }
}

/// What the word says, if anything.
fn sign_named(word: &Name) -> Option<Sign>
    ensures { result ≡ sign_of word.now }
{
    if word.is(b"t") {
        Some(Sign::True)
    } else if word.is(b"f") {
        Some(Sign::False)
    } else if word.is(b"Inf") {
        Some(Sign::Inf)
    } else if word.is(b"Fin") {
        Some(Sign::Fin)
    } else {
        None
    }
}

/// "t" | "f" | ("Inf" | "Fin") "(" "!"? INT ")"
fn atom<I: Inputs>(
    alloc: Global,
    lexer: &mut Lexer,
    inputs: &mut I,
    ahead: &mut Token,
    depth: u32,
) -> Result<Formula, ReadFault>
    requires unspent { lexer.old.spent ≡ false }
    requires no_paren { ahead.old ≢ Token.LeftParen }
    ensures reads { ReadsParts (part.Atom depth ∷ []) [] (IsFatom depth) result
        (reader_state lexer.old ahead.old (I.seen inputs.old)) (reader_state lexer.new ahead.new (I.seen inputs.new)) }
{
    let Some(sign) = sign_at(ahead) else {
        return Err(refused(lexer));
    };
    advance(alloc, lexer, inputs, ahead)?;
    match sign {
        Sign::True => Ok(Formula::True),
        Sign::False => Ok(Formula::False),
        Sign::Inf => {
            let SetAt { number, neg } = set(alloc, lexer, inputs, ahead)?;
            Ok(Formula::Inf { set: number, neg })
        }
        Sign::Fin => {
            let SetAt { number, neg } = set(alloc, lexer, inputs, ahead)?;
            Ok(Formula::Fin { set: number, neg })
        }
    }
}

/// An acceptance set, and whether `!` stands before it.
#[derive(Clone, Copy)]
pub(crate) struct SetAt {
    number: u32,
    neg: bool,
}

/// "(" "!"? INT ")"
fn set<I: Inputs>(
    alloc: Global,
    lexer: &mut Lexer,
    inputs: &mut I,
    ahead: &mut Token,
) -> Result<SetAt, ReadFault>
    requires unspent { lexer.old.spent ≡ false }
    ensures reads { ReadsParts set_parts [] IsSet result
        (reader_state lexer.old ahead.old (I.seen inputs.old)) (reader_state lexer.new ahead.new (I.seen inputs.new)) }
{
    opening_paren(alloc, lexer, inputs, ahead)?;
    let neg = maybe_bang(alloc, lexer, inputs, ahead)?;
    let number = number(alloc, lexer, inputs, ahead)?;
    closing_paren(alloc, lexer, inputs, ahead)?;
    Ok(SetAt { number, neg })
}

/// "!"?
fn maybe_bang<I: Inputs>(
    alloc: Global,
    lexer: &mut Lexer,
    inputs: &mut I,
    ahead: &mut Token,
) -> Result<bool, ReadFault>
    requires unspent { lexer.old.spent ≡ false }
    ensures reads { ReadsParts (part.MaybeBang ∷ []) [] IsMaybeBang result
        (reader_state lexer.old ahead.old (I.seen inputs.old)) (reader_state lexer.new ahead.new (I.seen inputs.new)) }
{
    match ahead {
        Token::Bang => {}
        _ => return Ok(false),
    }
    advance(alloc, lexer, inputs, ahead)?;
    Ok(true)
}
