//! Edges, and states up to their edges, that are at hand as a whole: read from a slice, with no tokens in between.

ghost use Rattle.std.specs.Prelude.{◌≡◌, ◌-◌, ◌<◌, ◌≤◌, ◌∷◌, ◌++◌, ℕ, List, [], true, codes, length, MatchOption};
ghost use Rattle.hoa_lexer.specs.Bytes as kinds;
ghost use Rattle.hoa_lexer.specs.Spelling.{IsDelimited};
ghost use Rattle.hoa_lexer.specs.Text.{IsFront};
ghost use Rattle.hoa_lexer.specs.inner.Steps.{PassesBlanks};
ghost use Rattle.hoa_lexer.specs.declared.token.Token.TheVariants as token;
ghost use Rattle.hoa_parser.specs.Raw.{all_literals, raw_literal, raw_tree};
ghost use Rattle.hoa_parser.specs.inner.AtHand.{AreLiteralsBehind, AreMarks, AreMaybeMarks, AreMoreFactors, AreMoreLiterals, IsConjunctionText, IsFactor, IsGrouped, IsLabel};
ghost use Rattle.hoa_parser.specs.inner.AtHand.{IsLiteral, IsLiteralOf, IsIntText, IsPlain, IsPlainHead, IsSigned, next_word};

use super::body::StateHead;
use super::cube::{Cube, literal_of, no_literal, with_literal};
use crate::{EdgeEnds, RawEdge, RawLabel, RawLabels};
use aut_base::FewNumbers;
use std::alloc::Global;

/// What begins behind an edge, or behind a state up to its edges.
#[derive(Clone, Copy)]
pub(super) enum Next {
    /// An edge with a label: `[`.
    Edge,
    /// A state: `State:`.
    State,
}

/// How many bytes that begins with.
#[inline(always)]
pub(super) fn size_of(next: Next) -> usize
    ensures { result ≡ length (next_word next) }
{
    match next {
        Next::Edge => 1,
        Next::State => 6,
    }
}

/// Space, tab, line feed or carriage return.
#[inline(always)]
fn is_space(byte: u8) -> bool
    ensures { result ≡ kinds.is_space byte }
{
    byte == b' ' || byte == b'\t' || byte == b'\n' || byte == b'\r'
}

/// `0` to `9`.
#[inline(always)]
fn is_digit(byte: u8) -> bool
    ensures { result ≡ kinds.is_digit byte }
{
    b'0' <= byte && byte <= b'9'
}

/// The byte in front, and what stands behind it.
#[inline(always)]
fn front(bytes: &[u8]) -> Option<(u8, &[u8])>
    ensures { MatchOption result (Unit {0}) (λ found. bytes.now ≡ found.0 ∷ found.1.now) }
{
    match bytes {
        [first, rest @ ..] => Some((*first, rest)),
        [] => None,
    }
}

/// What stands behind the blanks of one byte in front.
#[inline(always)]
fn solid(bytes: &[u8]) -> &[u8]
    ensures { PassesBlanks bytes.now result.now }
{
    let mut left = bytes;
    'blanks: loop {
        match front(left) {
            Some((first, rest)) => {
                if !is_space(first) {
                    return left;
                }
                left = rest;
            }
            None => return left,
        }
    }
}

/// A number in front, and what stands behind it.
#[inline(always)]
fn number(bytes: &[u8]) -> Option<(u32, &[u8])>
    ensures { MatchOption result (Unit {0}) (λ found. IsFront bytes.now (token.Int found.0) found.1.now) }
{
    let (first, rest) = front(bytes)?;
    if !is_digit(first) {
        return None;
    }
    if first == b'0' {
        return Some((0, rest));
    }
    more_digits(first, rest)
}

/// The same behind its first digit, which is not `0`.
#[inline(always)]
fn more_digits(first: u8, bytes: &[u8]) -> Option<(u32, &[u8])>
    requires digit { kinds.is_digit first ≡ true }
    requires some { 0 < first - 48 }
    ensures { MatchOption result (Unit {0}) (λ found. IsFront (first ∷ bytes.now) (token.Int found.0) found.1.now) }
{
    let mut value = u64::from(first - b'0');
    let mut left = bytes;
    'digits: loop {
        let (byte, rest) = front(left)?;
        if !is_digit(byte) {
            return Some((value as u32, left));
        }
        value = 10 * value + u64::from(byte - b'0');
        if value > u64::from(u32::MAX) {
            return None;
        }
        left = rest;
    }
}

/// A number behind blanks, and what stands behind it and blanks.
#[inline(always)]
fn next_number(bytes: &[u8]) -> Option<(u32, &[u8])>
    ensures { MatchOption result (Unit {0}) (λ found. IsIntText found.0 bytes.now found.1.now) }
{
    match number(solid(bytes)) {
        Some((value, rest)) => Some((value, solid(rest))),
        None => None,
    }
}

/// What stands behind the sign of this byte, which is in front, and blanks.
#[inline(always)]
fn behind_sign(sign: u8, bytes: &[u8]) -> Option<&[u8]>
    ensures { MatchOption result (Unit {0}) (λ rest. IsSigned sign bytes.now rest.now) }
{
    let (first, rest) = front(bytes)?;
    if first != sign {
        return None;
    }
    Some(solid(rest))
}

/// Whether a word of one letter ends before these bytes.
#[inline(always)]
fn ends_word(bytes: &[u8]) -> bool
    ensures truth { result ≡ true → IsDelimited (token.Identifier (codes "t")) bytes.now }
    ensures falsity { result ≡ true → IsDelimited (token.Identifier (codes "f")) bytes.now }
{
    match bytes {
        [b']' | b' ' | b'&' | b'|' | b')', ..] => true,
        _ => false,
    }
}

/// "t" | "f" | INT | "!" INT, and what stands behind it and blanks.
#[tactic(auto, using(crate::proofs::grammar::RawTrees::raw_tree_rules))]
#[inline(always)]
fn literal(bytes: &[u8]) -> Option<(RawLabel, &[u8])>
    ensures { MatchOption result (Unit {0}) (λ found. IsLiteral found.0 bytes.now found.1.now) }
{
    let (first, rest) = front(bytes)?;
    match first {
        b'!' => {
            let (name, left) = next_number(rest)?;
            Some((RawLabel::Negated(name), left))
        }
        b't' => {
            if !ends_word(rest) {
                return None;
            }
            Some((RawLabel::True, solid(rest)))
        }
        b'f' => {
            if !ends_word(rest) {
                return None;
            }
            Some((RawLabel::False, solid(rest)))
        }
        _ => {
            let (name, left) = next_number(bytes)?;
            Some((RawLabel::Prop(name), left))
        }
    }
}

/// literal ("&" literal)*, and what stands behind it and blanks.
#[inline(always)]
fn conjunction(alloc: Global, bytes: &[u8]) -> Option<(RawLabel, &[u8])>
    ensures { MatchOption result (Unit {0}) (λ found. IsConjunctionText found.0 bytes.now found.1.now) }
{
    let (first, rest) = literal(bytes)?;
    match behind_sign(b'&', rest) {
        Some(left) => more_literals(alloc, first, left),
        None => Some((first, rest)),
    }
}

/// literal ("&" literal)*, behind a first one and `&`.
#[inline(always)]
fn more_literals(alloc: Global, first: RawLabel, bytes: &[u8]) -> Option<(RawLabel, &[u8])>
    ensures { MatchOption result (Unit {0}) (λ found. AreMoreLiterals (raw_tree first) found.0 bytes.now found.1.now) }
{
    match rising_literals(&first, bytes) {
        Some(found) => Some(found),
        None => listed_literals(alloc, first, bytes),
    }
}

/// The same as a cube, if the propositions rise and have bits.
fn rising_literals<'a>(first: &RawLabel, bytes: &'a [u8]) -> Option<(RawLabel, &'a [u8])>
    ensures { MatchOption result (Unit {0}) (λ found. AreMoreLiterals (raw_tree first.now) found.0 bytes.now found.1.now) }
{
    let (place, holds) = literal_of(first)?;
    let cube = with_literal(no_literal(), place, holds)?;
    let (place, holds, left) = signed(bytes)?;
    rising_behind(with_literal(cube, place, holds)?, left)
}

/// The same behind the literals of this cube.
#[tactic(auto, using(crate::proofs::grammar::RawTrees::raw_tree_rules))]
fn rising_behind(first: Cube, bytes: &[u8]) -> Option<(RawLabel, &[u8])>
    requires { first.values ≤ first.names }
    ensures { MatchOption result (Unit {0}) (λ found. AreLiteralsBehind (all_literals first.names first.values) found.0 bytes.now found.1.now) }
{
    let mut cube = first;
    let mut left = bytes;
    'literals: loop {
        match behind_sign(b'&', left) {
            Some(behind) => {
                let (place, holds, rest) = signed(behind)?;
                cube = with_literal(cube, place, holds)?;
                left = rest;
            }
            None => {
                let Cube { names, values } = cube;
                return Some((RawLabel::Cube { names, values }, left));
            }
        }
    }
}

/// "!"? INT: the proposition, whether it is to hold, and what stands behind it and blanks.
#[inline(always)]
fn signed(bytes: &[u8]) -> Option<(u32, bool, &[u8])>
    ensures { MatchOption result (Unit {0}) (λ found. IsLiteralOf (raw_literal found.0 found.1) bytes.now found.2.now) }
{
    match behind_sign(b'!', bytes) {
        Some(left) => {
            let (place, rest) = next_number(left)?;
            Some((place, false, rest))
        }
        None => {
            let (place, rest) = next_number(bytes)?;
            Some((place, true, rest))
        }
    }
}

/// The same as a list.
#[tactic(auto, using(crate::proofs::grammar::RawTrees::raw_tree_rules))]
fn listed_literals(alloc: Global, first: RawLabel, bytes: &[u8]) -> Option<(RawLabel, &[u8])>
    ensures { MatchOption result (Unit {0}) (λ found. AreMoreLiterals (raw_tree first) found.0 bytes.now found.1.now) }
{
    let (second, rest) = literal(bytes)?;
    let mut parts = RawLabels::pair(alloc, first, second);
    let mut left = rest;
    'literals: loop {
        match behind_sign(b'&', left) {
            Some(behind) => {
                let (next, rest) = literal(behind)?;
                match parts.push(next) {
                    Ok(()) => {}
                    Err(_) => return None,
                }
                left = rest;
            }
            None => return Some((RawLabel::And(Box::new(alloc, parts).ok()?), left)),
        }
    }
}

/// conjunction | "(" conjunction ")"
#[inline(always)]
fn factor(alloc: Global, bytes: &[u8]) -> Option<(RawLabel, &[u8])>
    ensures { MatchOption result (Unit {0}) (λ found. IsFactor found.0 bytes.now found.1.now) }
{
    match behind_sign(b'(', bytes) {
        Some(left) => group(alloc, left),
        None => conjunction(alloc, bytes),
    }
}

/// conjunction ")"
fn group(alloc: Global, bytes: &[u8]) -> Option<(RawLabel, &[u8])>
    ensures { MatchOption result (Unit {0}) (λ found. IsGrouped found.0 bytes.now found.1.now) }
{
    let (label, rest) = conjunction(alloc, bytes)?;
    let left = behind_sign(b')', rest)?;
    Some((label, left))
}

/// factor ("|" factor)*
#[inline(always)]
fn label(alloc: Global, bytes: &[u8]) -> Option<(RawLabel, &[u8])>
    ensures { MatchOption result (Unit {0}) (λ found. IsLabel found.0 bytes.now found.1.now) }
{
    let (first, rest) = factor(alloc, bytes)?;
    match behind_sign(b'|', rest) {
        Some(left) => more_factors(alloc, first, left),
        None => Some((first, rest)),
    }
}

/// factor ("|" factor)*, behind a first one and `|`.
#[tactic(auto, using(crate::proofs::grammar::RawTrees::raw_tree_rules))]
fn more_factors(alloc: Global, first: RawLabel, bytes: &[u8]) -> Option<(RawLabel, &[u8])>
    ensures { MatchOption result (Unit {0}) (λ found. AreMoreFactors (raw_tree first) found.0 bytes.now found.1.now) }
{
    let (second, rest) = factor(alloc, bytes)?;
    let mut parts = RawLabels::pair(alloc, first, second);
    let mut left = rest;
    'factors: loop {
        match behind_sign(b'|', left) {
            Some(behind) => {
                let (next, rest) = factor(alloc, behind)?;
                match parts.push(next) {
                    Ok(()) => {}
                    Err(_) => return None,
                }
                left = rest;
            }
            None => return Some((RawLabel::Or(Box::new(alloc, parts).ok()?), left)),
        }
    }
}

/// INT* "}"
fn marks(alloc: Global, bytes: &[u8]) -> Option<(FewNumbers, &[u8])>
    ensures { MatchOption result (Unit {0}) (λ found. AreMarks found.0 bytes.now found.1.now) }
{
    let mut marks = FewNumbers::new(alloc);
    let mut left = bytes;
    'marks: loop {
        match behind_sign(b'}', left) {
            Some(rest) => return Some((marks, rest)),
            None => {
                let (mark, rest) = next_number(left)?;
                match marks.push(mark) {
                    Ok(()) => {}
                    Err(_) => return None,
                }
                left = rest;
            }
        }
    }
}

/// sig?
#[inline(always)]
fn maybe_marks(alloc: Global, bytes: &[u8]) -> Option<(FewNumbers, &[u8])>
    ensures { MatchOption result (Unit {0}) (λ found. AreMaybeMarks found.0 bytes.now found.1.now) }
{
    match behind_sign(b'{', bytes) {
        Some(left) => marks(alloc, left),
        None => Some((FewNumbers::new(alloc), bytes)),
    }
}

/// This state alone, and these sets.
#[inline(always)]
fn ends_at(alloc: Global, goal: u32, marks: FewNumbers) -> Option<EdgeEnds>
    ensures { MatchOption result (Unit {0}) (λ ends. ends ≡ record { to = goal ∷ []; marks = marks }) }
{
    EdgeEnds::at_state(alloc, goal, marks).ok()
}

/// What begins here, and what stands behind its first token.
#[inline(always)]
fn next_up(bytes: &[u8]) -> Option<(Next, &[u8])>
    ensures { MatchOption result (Unit {0}) (λ found. bytes.now ≡ next_word found.0 ++ found.1.now) }
{
    match bytes {
        [b'[', rest @ ..] => Some((Next::Edge, rest)),
        [b'S', b't', b'a', b't', b'e', b':', rest @ ..] => Some((Next::State, rest)),
        _ => None,
    }
}

/// An edge behind its `[`, up to what begins behind it, and what stands behind the first token of that.
pub(super) fn plain_edge(alloc: Global, bytes: &[u8]) -> Option<(RawEdge, Next, &[u8])>
    ensures { MatchOption result (Unit {0}) (λ found. IsPlain found.0 bytes.now (next_word found.1 ++ found.2.now)) }
{
    let (label, rest) = label(alloc, solid(bytes))?;
    let rest = behind_sign(b']', rest)?;
    let (goal, rest) = next_number(rest)?;
    let (marks, rest) = maybe_marks(alloc, rest)?;
    let (next, left) = next_up(rest)?;
    let ends = ends_at(alloc, goal, marks)?;
    let label = Some(label);
    Some((RawEdge { label, ends }, next, left))
}

/// INT sig?: a state behind its `State:`, up to what begins behind that, and what stands behind the first token of it.
pub(super) fn plain_head(alloc: Global, bytes: &[u8]) -> Option<(StateHead, Next, &[u8])>
    ensures { MatchOption result (Unit {0}) (λ found. IsPlainHead found.0 bytes.now (next_word found.1 ++ found.2.now)) }
{
    let (number, rest) = next_number(bytes)?;
    let (marks, rest) = maybe_marks(alloc, rest)?;
    let (next, left) = next_up(rest)?;
    let label = None;
    Some((
        StateHead {
            label,
            number,
            marks,
        },
        next,
        left,
    ))
}

/// A label behind its `[`, up to its `]`, and what stands behind that.
pub(super) fn plain_label(alloc: Global, bytes: &[u8]) -> Option<(RawLabel, &[u8])>
    ensures { MatchOption result (Unit {0}) (λ found. IsLabel found.0 bytes.now (93 ∷ found.1.now)) }
{
    let (label, rest) = label(alloc, solid(bytes))?;
    let (sign, next) = front(rest)?;
    if sign != b']' {
        return None;
    }
    Some((label, next))
}
