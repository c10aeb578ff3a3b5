//! Labels of edges, states and aliases.

ghost use Rattle.std.specs.Prelude.{◌≡◌, ◌≢◌, ◌≤◌, ℕ, List, ◌∷◌, [], false, IfOk, OnOk};
ghost use Rattle.std.specs.Option.{option_map};
ghost use Rattle.hoa_lexer.specs.declared.token.Token.{Token};
ghost use Rattle.hoa_parser.specs.inner.Expecting as part;
ghost use Rattle.hoa_parser.specs.inner.Expecting.{expected_label};
ghost use Rattle.hoa_parser.specs.inner.Parsing.{ReadsParts, Uses, reader_state};
ghost use Rattle.hoa_parser.specs.inner.RuleReads.{plain_atom_of, truth_value, IsAndLnot, IsAndLnots, IsLabel, IsLand, IsLnot, IsOrLand, IsOrLands};
ghost use Rattle.hoa_parser.specs.Raw.{RawTree, raw_tree};

use super::tokens::{advance, closing_paren, refused, take};
use crate::{RawLabel, RawLabels, ReadFault};
use aut_base::{MOST_DEPTH, Memory};
use aut_io::Inputs;
use hoa_lexer::{Lexer, Name, Token};
use std::alloc::Global;

/// label = land ("|" land)*, where `depth` of `(` and `!` are open
#[cycle(label)]
#[inline]
pub(super) fn label<I: Inputs>(
    alloc: Global,
    lexer: &mut Lexer,
    inputs: &mut I,
    ahead: &mut Token,
    depth: u32,
) -> Result<RawLabel, ReadFault>
    requires unspent { lexer.old.spent ≡ false }
    requires depth { depth ≤ MOST_DEPTH }
    ensures reads { ReadsParts (expected_label depth) [] (IsLabel depth) result
        (reader_state lexer.old ahead.old (I.seen inputs.old)) (reader_state lexer.new ahead.new (I.seen inputs.new)) }
{
    let first = land(alloc, lexer, inputs, ahead, depth)?;
    or_lands(alloc, lexer, inputs, ahead, depth, first)
}

/// ("|" land)*, behind a first one. Mostly there is none.
#[cycle(label)]
#[inline]
fn or_lands<I: Inputs>(
    alloc: Global,
    lexer: &mut Lexer,
    inputs: &mut I,
    ahead: &mut Token,
    depth: u32,
    first: RawLabel,
) -> Result<RawLabel, ReadFault>
    requires unspent { lexer.old.spent ≡ false }
    requires depth { depth ≤ MOST_DEPTH }
    ensures reads { ReadsParts (part.Products depth ∷ []) [] (IsOrLands depth (raw_tree first)) result
        (reader_state lexer.old ahead.old (I.seen inputs.old)) (reader_state lexer.new ahead.new (I.seen inputs.new)) }
{
    match ahead {
        Token::Bar => more_lands(alloc, lexer, inputs, ahead, depth, first),
        _ => Ok(first),
    }
}

/// ("|" land)+, behind a first one
#[cycle(label)]
fn more_lands<I: Inputs>(
    alloc: Global,
    lexer: &mut Lexer,
    inputs: &mut I,
    ahead: &mut Token,
    depth: u32,
    first: RawLabel,
) -> Result<RawLabel, ReadFault>
    requires unspent { lexer.old.spent ≡ false }
    requires bar { ahead.old ≡ Token.Bar }
    requires depth { depth ≤ MOST_DEPTH }
    ensures reads { ReadsParts (part.Products depth ∷ []) [] (IsOrLands depth (raw_tree first)) result
        (reader_state lexer.old ahead.old (I.seen inputs.old)) (reader_state lexer.new ahead.new (I.seen inputs.new)) }
{
    let second = or_land(alloc, lexer, inputs, ahead, depth)?;
    let mut parts = RawLabels::pair(alloc, first, second);
    'lands: loop {
        match ahead {
            Token::Bar => {}
            _ => return Ok(RawLabel::Or(Box::new(alloc, parts)?)),
        }
        let next = or_land(alloc, lexer, inputs, ahead, depth)?;
        parts.push(next)?;
    }
}

/// "|" land
#[cycle(label)]
fn or_land<I: Inputs>(
    alloc: Global,
    lexer: &mut Lexer,
    inputs: &mut I,
    ahead: &mut Token,
    depth: u32,
) -> Result<RawLabel, ReadFault>
    requires unspent { lexer.old.spent ≡ false }
    requires bar { ahead.old ≡ Token.Bar }
    requires depth { depth ≤ MOST_DEPTH }
    ensures reads { ReadsParts (part.Products depth ∷ []) (part.Products depth ∷ []) (IsOrLand depth) result
        (reader_state lexer.old ahead.old (I.seen inputs.old)) (reader_state lexer.new ahead.new (I.seen inputs.new)) }
    ensures uses { OnOk result (Uses lexer.old lexer.new) }
{
    advance(alloc, lexer, inputs, ahead)?;
    land(alloc, lexer, inputs, ahead, depth)
}

/// land = lnot ("&" lnot)*
#[cycle(label)]
#[inline]
fn land<I: Inputs>(
    alloc: Global,
    lexer: &mut Lexer,
    inputs: &mut I,
    ahead: &mut Token,
    depth: u32,
) -> Result<RawLabel, ReadFault>
    requires unspent { lexer.old.spent ≡ false }
    requires depth { depth ≤ MOST_DEPTH }
    ensures reads { ReadsParts (part.Factor depth ∷ part.Factors depth ∷ []) [] (IsLand depth) result
        (reader_state lexer.old ahead.old (I.seen inputs.old)) (reader_state lexer.new ahead.new (I.seen inputs.new)) }
{
    let first = lnot(alloc, lexer, inputs, ahead, depth)?;
    and_lnots(alloc, lexer, inputs, ahead, depth, first)
}

/// ("&" lnot)*, behind a first one. Mostly there is none.
#[cycle(label)]
#[inline]
fn and_lnots<I: Inputs>(
    alloc: Global,
    lexer: &mut Lexer,
    inputs: &mut I,
    ahead: &mut Token,
    depth: u32,
    first: RawLabel,
) -> Result<RawLabel, ReadFault>
    requires unspent { lexer.old.spent ≡ false }
    requires depth { depth ≤ MOST_DEPTH }
    ensures reads { ReadsParts (part.Factors depth ∷ []) [] (IsAndLnots depth (raw_tree first)) result
        (reader_state lexer.old ahead.old (I.seen inputs.old)) (reader_state lexer.new ahead.new (I.seen inputs.new)) }
{
    match ahead {
        Token::Amp => more_lnots(alloc, lexer, inputs, ahead, depth, first),
        _ => Ok(first),
    }
}

/// ("&" lnot)+, behind a first one
#[cycle(label)]
fn more_lnots<I: Inputs>(
    alloc: Global,
    lexer: &mut Lexer,
    inputs: &mut I,
    ahead: &mut Token,
    depth: u32,
    first: RawLabel,
) -> Result<RawLabel, ReadFault>
    requires unspent { lexer.old.spent ≡ false }
    requires amp { ahead.old ≡ Token.Amp }
    requires depth { depth ≤ MOST_DEPTH }
    ensures reads { ReadsParts (part.Factors depth ∷ []) [] (IsAndLnots depth (raw_tree first)) result
        (reader_state lexer.old ahead.old (I.seen inputs.old)) (reader_state lexer.new ahead.new (I.seen inputs.new)) }
{
    let second = and_lnot(alloc, lexer, inputs, ahead, depth)?;
    let mut parts = RawLabels::pair(alloc, first, second);
    'lnots: loop {
        match ahead {
            Token::Amp => {}
            _ => return Ok(RawLabel::And(Box::new(alloc, parts)?)),
        }
        let next = and_lnot(alloc, lexer, inputs, ahead, depth)?;
        parts.push(next)?;
    }
}

/// "&" lnot
#[cycle(label)]
fn and_lnot<I: Inputs>(
    alloc: Global,
    lexer: &mut Lexer,
    inputs: &mut I,
    ahead: &mut Token,
    depth: u32,
) -> Result<RawLabel, ReadFault>
    requires unspent { lexer.old.spent ≡ false }
    requires amp { ahead.old ≡ Token.Amp }
    requires depth { depth ≤ MOST_DEPTH }
    ensures reads { ReadsParts (part.Factors depth ∷ []) (part.Factors depth ∷ []) (IsAndLnot depth) result
        (reader_state lexer.old ahead.old (I.seen inputs.old)) (reader_state lexer.new ahead.new (I.seen inputs.new)) }
    ensures uses { OnOk result (Uses lexer.old lexer.new) }
{
    advance(alloc, lexer, inputs, ahead)?;
    lnot(alloc, lexer, inputs, ahead, depth)
}

/// lnot = "!" lnot | "t" | "f" | INT | ANAME | "(" label ")"
#[cycle(label)]
#[inline]
fn lnot<I: Inputs>(
    alloc: Global,
    lexer: &mut Lexer,
    inputs: &mut I,
    ahead: &mut Token,
    depth: u32,
) -> Result<RawLabel, ReadFault>
    requires unspent { lexer.old.spent ≡ false }
    requires depth { depth ≤ MOST_DEPTH }
    ensures reads { ReadsParts (part.Factor depth ∷ []) [] (IsLnot depth) result
        (reader_state lexer.old ahead.old (I.seen inputs.old)) (reader_state lexer.new ahead.new (I.seen inputs.new)) }
{
    match ahead {
        Token::Bang => negation(alloc, lexer, inputs, ahead, depth),
        Token::LeftParen => group(alloc, lexer, inputs, ahead, depth),
        _ => atom(alloc, lexer, inputs, ahead, depth),
    }
}

/// "!" lnot
#[cycle(label)]
fn negation<I: Inputs>(
    alloc: Global,
    lexer: &mut Lexer,
    inputs: &mut I,
    ahead: &mut Token,
    depth: u32,
) -> Result<RawLabel, ReadFault>
    requires unspent { lexer.old.spent ≡ false }
    requires bang { ahead.old ≡ Token.Bang }
    requires depth { depth ≤ MOST_DEPTH }
    ensures reads { ReadsParts (part.Factor depth ∷ []) [] (IsLnot depth) result
        (reader_state lexer.old ahead.old (I.seen inputs.old)) (reader_state lexer.new ahead.new (I.seen inputs.new)) }
{
    if depth >= MOST_DEPTH {
        return Err(ReadFault::Depth);
    }
    advance(alloc, lexer, inputs, ahead)?;
    let inner = lnot(alloc, lexer, inputs, ahead, depth + 1)?;
    Ok(negated(alloc, inner)?)
}

/// The label with `!` before it.
#[tactic(auto, using(crate::proofs::grammar::RawTrees::raw_tree_rules))]
fn negated(alloc: Global, inner: RawLabel) -> Result<RawLabel, Memory>
    ensures { IfOk result (λ label. raw_tree label ≡ RawTree.Not (raw_tree inner)) }
{
    match inner {
        RawLabel::Prop(place) => Ok(RawLabel::Negated(place)),
        _ => Ok(RawLabel::Not(Box::new(alloc, inner)?)),
    }
}

/// "(" label ")"
#[cycle(label)]
fn group<I: Inputs>(
    alloc: Global,
    lexer: &mut Lexer,
    inputs: &mut I,
    ahead: &mut Token,
    depth: u32,
) -> Result<RawLabel, ReadFault>
    requires unspent { lexer.old.spent ≡ false }
    requires paren { ahead.old ≡ Token.LeftParen }
    requires depth { depth ≤ MOST_DEPTH }
    ensures reads { ReadsParts (part.Factor depth ∷ []) [] (IsLnot depth) result
        (reader_state lexer.old ahead.old (I.seen inputs.old)) (reader_state lexer.new ahead.new (I.seen inputs.new)) }
{
    if depth >= MOST_DEPTH {
        return Err(ReadFault::Depth);
    }
    advance(alloc, lexer, inputs, ahead)?;
    let inner = label(alloc, lexer, inputs, ahead, depth + 1)?;
    closing_paren(alloc, lexer, inputs, ahead)?;
    Ok(inner)
}

/// What the token says as a label of its own, if it does: "t" | "f" | INT. An alias is left to `alias`.
#[tactic(auto, using(crate::proofs::grammar::RawTrees::raw_tree_rules))]
fn plain_atom(token: &Token) -> Option<RawLabel>
    ensures { option_map raw_tree result ≡ plain_atom_of token.now }
{
    match token {
        Token::Identifier(word) => truth_value(word),
        Token::Int(place) => Some(RawLabel::Prop(*place)),
        _ => None,
    }
}

/// "t" | "f"
#[tactic(auto, using(crate::proofs::grammar::RawTrees::raw_tree_rules))]
fn truth_value(word: &Name) -> Option<RawLabel>
    ensures { option_map raw_tree result ≡ truth_value word.now }
{
    if word.is(b"t") {
        Some(RawLabel::True)
    } else if word.is(b"f") {
        Some(RawLabel::False)
    } else {
        None
    }
}

/// "t" | "f" | INT | ANAME
#[inline]
fn atom<I: Inputs>(
    alloc: Global,
    lexer: &mut Lexer,
    inputs: &mut I,
    ahead: &mut Token,
    depth: u32,
) -> Result<RawLabel, ReadFault>
    requires unspent { lexer.old.spent ≡ false }
    requires no_bang { ahead.old ≢ Token.Bang }
    requires no_paren { ahead.old ≢ Token.LeftParen }
    ensures reads { ReadsParts (part.Factor depth ∷ []) [] (IsLnot depth) result
        (reader_state lexer.old ahead.old (I.seen inputs.old)) (reader_state lexer.new ahead.new (I.seen inputs.new)) }
{
    match ahead {
        Token::Alias(_) => return alias(alloc, lexer, inputs, ahead, depth),
        _ => {}
    }
    let Some(label) = plain_atom(ahead) else {
        return Err(refused(lexer));
    };
    advance(alloc, lexer, inputs, ahead)?;
    Ok(label)
}

/// ANAME
fn alias<I: Inputs>(
    alloc: Global,
    lexer: &mut Lexer,
    inputs: &mut I,
    ahead: &mut Token,
    depth: u32,
) -> Result<RawLabel, ReadFault>
    requires unspent { lexer.old.spent ≡ false }
    requires names { (name : List ℕ) × (ahead.old ≡ Token.Alias name) }
    ensures reads { ReadsParts (part.Factor depth ∷ []) [] (IsLnot depth) result
        (reader_state lexer.old ahead.old (I.seen inputs.old)) (reader_state lexer.new ahead.new (I.seen inputs.new)) }
{
    match take(alloc, lexer, inputs, ahead)? {
        Token::Alias(name) => Ok(RawLabel::Alias(Box::new(alloc, name)?)),
        _ => unreachable!(),
    }
}
