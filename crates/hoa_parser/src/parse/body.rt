//! The states of a body and their edges.

ghost use Rattle.std.specs.Prelude.{◌≡◌, ◌≢◌, ◌∷◌, ◌++◌, [], codes, false, MatchOption, OnOk};
ghost use Rattle.hoa_lexer.specs.declared.token.Token.{Token};
ghost use Rattle.hoa_parser.specs.inner.AtHand.{next_token};
ghost use Rattle.hoa_parser.specs.inner.Expecting as part;
ghost use Rattle.hoa_parser.specs.inner.Expecting.{move};
ghost use Rattle.hoa_parser.specs.inner.Parsing.{ReadsParts, ReadsTo, Uses, reader_state};
ghost use Rattle.hoa_parser.specs.inner.RuleReads.{AreEdgesWritten, AreStatesWritten, IsEdge, IsHead, IsMaybeLabel, IsOpened, IsState};

use super::label::label;
use super::lists::{conj, maybe_marks};
use super::plain::{Next, plain_edge, plain_head, plain_label, size_of};
use super::tokens::{advance, closing_bracket, maybe_quoted, number, refused};
use crate::header::{Header, header_named};
use crate::{EdgeEnds, RawEdge, RawEdges, RawLabel, RawState, RawStates, ReadFault};
use aut_base::{FewNumbers, Memory};
use aut_io::Inputs;
use hoa_lexer::{Lexer, Name, Token};
use std::alloc::Global;

/// A state without its edges.
#[derive(Drop)]
pub(super) struct StateHead {
    pub label: Option<RawLabel>,
    pub number: u32,
    pub marks: FewNumbers,
}

/// state*, up to `--END--`
pub(super) fn states<I: Inputs>(
    alloc: Global,
    lexer: &mut Lexer,
    inputs: &mut I,
    ahead: &mut Token,
) -> Result<RawStates, ReadFault>
    requires unspent { lexer.old.spent ≡ false }
    ensures reads { ReadsParts (part.States ∷ []) (part.States ∷ []) AreStatesWritten result
        (reader_state lexer.old ahead.old (I.seen inputs.old)) (reader_state lexer.new ahead.new (I.seen inputs.new)) }
    ensures ends { OnOk result (ahead.new ≡ Token.End) }
{
    let mut states = RawStates::new(alloc);
    'states: loop {
        match ahead {
            Token::HeaderName(_) => {}
            Token::End => return Ok(states),
            _ => return Err(refused(lexer)),
        }
        let state = state_at(alloc, lexer, inputs, ahead)?;
        states.push(state)?;
    }
}

/// state = "State:" ("[" label "]")? INT STRING? sig? edge*
fn state_at<I: Inputs>(
    alloc: Global,
    lexer: &mut Lexer,
    inputs: &mut I,
    ahead: &mut Token,
) -> Result<RawState, ReadFault>
    requires unspent { lexer.old.spent ≡ false }
    requires begins { ahead.old ≢ Token.End }
    ensures reads { ReadsParts (part.States ∷ []) (part.States ∷ []) IsState result
        (reader_state lexer.old ahead.old (I.seen inputs.old)) (reader_state lexer.new ahead.new (I.seen inputs.new)) }
    ensures uses { OnOk result (Uses lexer.old lexer.new) }
{
    let header = match ahead {
        Token::HeaderName(name) => header_named(name),
        _ => return Err(refused(lexer)),
    };
    match header {
        Header::State => {}
        _ => return Err(refused(lexer)),
    }
    let head = head(alloc, lexer, inputs, ahead)?;
    let edges = edges(alloc, lexer, inputs, ahead)?;
    Ok(RawState {
        label: head.label,
        number: head.number,
        marks: head.marks,
        edges,
    })
}

/// "State:" ("[" label "]")? INT STRING? sig?
#[inline]
fn head<I: Inputs>(
    alloc: Global,
    lexer: &mut Lexer,
    inputs: &mut I,
    ahead: &mut Token,
) -> Result<StateHead, ReadFault>
    requires unspent { lexer.old.spent ≡ false }
    requires begins { ahead.old ≡ Token.HeaderName (codes "State") }
    ensures reads { ReadsParts (part.States ∷ []) (part.Edges ∷ part.States ∷ []) IsHead result
        (reader_state lexer.old ahead.old (I.seen inputs.old)) (reader_state lexer.new ahead.new (I.seen inputs.new)) }
    ensures uses { OnOk result (Uses lexer.old lexer.new) }
{
    match head_at_hand(alloc, lexer, inputs, ahead) {
        Some(head) => Ok(head),
        None => head_of_tokens(alloc, lexer, inputs, ahead),
    }
}

/// The same where its bytes are at hand, with those up to what begins behind it, whose token is at hand then. Where there is none
/// such, nothing is read.
fn head_at_hand<I: Inputs>(
    alloc: Global,
    lexer: &mut Lexer,
    inputs: &mut I,
    ahead: &mut Token,
) -> Option<StateHead>
    requires unspent { lexer.old.spent ≡ false }
    requires begins { ahead.old ≡ Token.HeaderName (codes "State") }
    ensures reads { MatchOption result (Unit {0}) (λ head. ReadsTo (part.States ∷ []) (part.Edges ∷ part.States ∷ []) (IsHead head)
        (reader_state lexer.old ahead.old (I.seen inputs.old)) (reader_state lexer.new ahead.new (I.seen inputs.new))) }
    ensures uses { MatchOption result (Unit {0}) (λ head. Uses lexer.old lexer.new) }
    ensures none { MatchOption result ((lexer.new ≡ lexer.old) × (inputs.new ≡ inputs.old) × (ahead.new ≡ ahead.old)) (λ head. Unit {0}) }
{
    let bytes = lexer.ahead(inputs);
    let (head, next, left) = plain_head(alloc, bytes)?;
    let count = bytes.len() - left.len();
    put(alloc, ahead, next)?;
    lexer.pass_token(inputs, count, size_of(next));
    Some(head)
}

/// Puts the token with which that begins in the place of this one, or leaves this one where memory is wanting.
#[inline(always)]
fn put(alloc: Global, token: &mut Token, next: Next) -> Option<()>
    ensures { MatchOption result (token.new ≡ token.old) (λ done. token.new ≡ next_token next) }
{
    match (next, &*token) {
        (Next::Edge, Token::LeftBracket) => {}
        (Next::Edge, _) => *token = Token::LeftBracket,
        (Next::State, _) => *token = Token::HeaderName(Name::from_bytes(alloc, b"State").ok()?),
    }
    Some(())
}

/// The same as `head`, token by token.
fn head_of_tokens<I: Inputs>(
    alloc: Global,
    lexer: &mut Lexer,
    inputs: &mut I,
    ahead: &mut Token,
) -> Result<StateHead, ReadFault>
    requires unspent { lexer.old.spent ≡ false }
    requires begins { ahead.old ≡ Token.HeaderName (codes "State") }
    ensures reads { ReadsParts (part.States ∷ []) (part.Edges ∷ part.States ∷ []) IsHead result
        (reader_state lexer.old ahead.old (I.seen inputs.old)) (reader_state lexer.new ahead.new (I.seen inputs.new)) }
    ensures uses { OnOk result (Uses lexer.old lexer.new) }
{
    advance(alloc, lexer, inputs, ahead)?;
    let label = maybe_label(alloc, lexer, inputs, ahead)?;
    let number = number(alloc, lexer, inputs, ahead)?;
    maybe_quoted(alloc, lexer, inputs, ahead)?;
    let marks = maybe_marks(alloc, lexer, inputs, ahead)?;
    Ok(StateHead {
        label,
        number,
        marks,
    })
}

/// A label whose bytes are at hand, with its `]`, which is at hand then. Where there is none such, nothing is read.
fn label_at_hand<I: Inputs>(
    alloc: Global,
    lexer: &mut Lexer,
    inputs: &mut I,
    ahead: &mut Token,
) -> Option<RawLabel>
    requires unspent { lexer.old.spent ≡ false }
    requires opens { ahead.old ≡ Token.LeftBracket }
    ensures reads { MatchOption result (Unit {0}) (λ label. ReadsTo (part.MaybeLabel ∷ []) (part.ClosingBracket ∷ []) (IsOpened label)
        (reader_state lexer.old ahead.old (I.seen inputs.old)) (reader_state lexer.new ahead.new (I.seen inputs.new))) }
    ensures none { MatchOption result ((lexer.new ≡ lexer.old) × (inputs.new ≡ inputs.old) × (ahead.new ≡ ahead.old)) (λ label. Unit {0}) }
{
    let bytes = lexer.ahead(inputs);
    let (label, next) = plain_label(alloc, bytes)?;
    let count = bytes.len() - next.len();
    lexer.pass(inputs, count);
    *ahead = Token::RightBracket;
    Some(label)
}

/// "[" label
#[inline]
fn opened_label<I: Inputs>(
    alloc: Global,
    lexer: &mut Lexer,
    inputs: &mut I,
    ahead: &mut Token,
) -> Result<RawLabel, ReadFault>
    requires unspent { lexer.old.spent ≡ false }
    requires opens { ahead.old ≡ Token.LeftBracket }
    ensures reads { ReadsParts (part.MaybeLabel ∷ []) (part.ClosingBracket ∷ []) IsOpened result
        (reader_state lexer.old ahead.old (I.seen inputs.old)) (reader_state lexer.new ahead.new (I.seen inputs.new)) }
{
    match label_at_hand(alloc, lexer, inputs, ahead) {
        Some(label) => Ok(label),
        None => label_of_tokens(alloc, lexer, inputs, ahead),
    }
}

/// The same, token by token.
fn label_of_tokens<I: Inputs>(
    alloc: Global,
    lexer: &mut Lexer,
    inputs: &mut I,
    ahead: &mut Token,
) -> Result<RawLabel, ReadFault>
    requires unspent { lexer.old.spent ≡ false }
    requires opens { ahead.old ≡ Token.LeftBracket }
    ensures reads { ReadsParts (part.MaybeLabel ∷ []) (part.ClosingBracket ∷ []) IsOpened result
        (reader_state lexer.old ahead.old (I.seen inputs.old)) (reader_state lexer.new ahead.new (I.seen inputs.new)) }
{
    advance(alloc, lexer, inputs, ahead)?;
    label(alloc, lexer, inputs, ahead, 0)
}

/// ("[" label "]")?
#[inline]
fn maybe_label<I: Inputs>(
    alloc: Global,
    lexer: &mut Lexer,
    inputs: &mut I,
    ahead: &mut Token,
) -> Result<Option<RawLabel>, ReadFault>
    requires unspent { lexer.old.spent ≡ false }
    ensures reads { ReadsParts (part.MaybeLabel ∷ []) [] IsMaybeLabel result
        (reader_state lexer.old ahead.old (I.seen inputs.old)) (reader_state lexer.new ahead.new (I.seen inputs.new)) }
{
    match ahead {
        Token::LeftBracket => {}
        _ => return Ok(None),
    }
    let label = opened_label(alloc, lexer, inputs, ahead)?;
    closing_bracket(alloc, lexer, inputs, ahead)?;
    Ok(Some(label))
}

/// edge*
fn edges<I: Inputs>(
    alloc: Global,
    lexer: &mut Lexer,
    inputs: &mut I,
    ahead: &mut Token,
) -> Result<RawEdges, ReadFault>
    requires unspent { lexer.old.spent ≡ false }
    ensures reads { ReadsParts (part.Edges ∷ []) [] AreEdgesWritten result
        (reader_state lexer.old ahead.old (I.seen inputs.old)) (reader_state lexer.new ahead.new (I.seen inputs.new)) }
{
    let mut edges = RawEdges::new(alloc);
    'edges: loop {
        match ahead {
            Token::LeftBracket | Token::Int(_) => {}
            _ => return Ok(edges),
        }
        let edge = edge(alloc, lexer, inputs, ahead)?;
        edges.push(edge)?;
    }
}

// Why so: 'Plain edges and states are read from the bytes at hand' in docs/DECISIONS.md.
/// An edge whose bytes are at hand, with those up to what begins behind it, whose token is at hand then. Where there is none such,
/// nothing is read.
fn edge_at_hand<I: Inputs>(
    alloc: Global,
    lexer: &mut Lexer,
    inputs: &mut I,
    ahead: &mut Token,
) -> Option<RawEdge>
    requires unspent { lexer.old.spent ≡ false }
    ensures reads { MatchOption result (Unit {0}) (λ edge. ReadsTo (part.Edges ∷ []) (part.Edges ∷ []) (IsEdge edge)
        (reader_state lexer.old ahead.old (I.seen inputs.old)) (reader_state lexer.new ahead.new (I.seen inputs.new))) }
    ensures uses { MatchOption result (Unit {0}) (λ edge. Uses lexer.old lexer.new) }
    ensures none { MatchOption result ((lexer.new ≡ lexer.old) × (inputs.new ≡ inputs.old) × (ahead.new ≡ ahead.old)) (λ edge. Unit {0}) }
{
    match ahead {
        Token::LeftBracket => {}
        _ => return None,
    }
    let bytes = lexer.ahead(inputs);
    let (edge, next, left) = plain_edge(alloc, bytes)?;
    let count = bytes.len() - left.len();
    put(alloc, ahead, next)?;
    lexer.pass_token(inputs, count, size_of(next));
    Some(edge)
}

/// edge = ("[" label "]")? conj sig?
fn edge<I: Inputs>(
    alloc: Global,
    lexer: &mut Lexer,
    inputs: &mut I,
    ahead: &mut Token,
) -> Result<RawEdge, ReadFault>
    requires unspent { lexer.old.spent ≡ false }
    requires begins { move part.Edges ahead.old ≢ part.Passes }
    ensures reads { ReadsParts (part.Edges ∷ []) (part.Edges ∷ []) IsEdge result
        (reader_state lexer.old ahead.old (I.seen inputs.old)) (reader_state lexer.new ahead.new (I.seen inputs.new)) }
    ensures uses { OnOk result (Uses lexer.old lexer.new) }
{
    match edge_at_hand(alloc, lexer, inputs, ahead) {
        Some(edge) => Ok(edge),
        None => edge_of_tokens(alloc, lexer, inputs, ahead),
    }
}

/// The same, token by token.
fn edge_of_tokens<I: Inputs>(
    alloc: Global,
    lexer: &mut Lexer,
    inputs: &mut I,
    ahead: &mut Token,
) -> Result<RawEdge, ReadFault>
    requires unspent { lexer.old.spent ≡ false }
    requires begins { move part.Edges ahead.old ≢ part.Passes }
    ensures reads { ReadsParts (part.Edges ∷ []) (part.Edges ∷ []) IsEdge result
        (reader_state lexer.old ahead.old (I.seen inputs.old)) (reader_state lexer.new ahead.new (I.seen inputs.new)) }
    ensures uses { OnOk result (Uses lexer.old lexer.new) }
{
    let label = maybe_label(alloc, lexer, inputs, ahead)?;
    let to = conj(alloc, lexer, inputs, ahead)?;
    let marks = maybe_marks(alloc, lexer, inputs, ahead)?;
    let ends = EdgeEnds::new(alloc, to, marks)?;
    Ok(RawEdge { label, ends })
}
