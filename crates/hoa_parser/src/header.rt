//! The names of headers.

ghost use Rattle.std.specs.Prelude.{◌≡◌};
ghost use Rattle.hoa_parser.specs.Headers.{header_of};

use hoa_lexer::Name;

/// What the name of a header says about what follows it.
#[derive(Clone, Copy, Debug, PartialEq, Eq)]
pub enum Header {
    States,
    Start,
    Ap,
    Alias,
    Acceptance,
    AccName,
    Tool,
    Name,
    Properties,
    /// `HOA:`, which opens an automaton.
    Opening,
    /// `State:`, which opens a state of the body.
    State,
    Other,
}

/// The header of this name. `State` is asked first: a body has one for each of its states.
pub(crate) fn header_named(name: &Name) -> Header
    ensures { result ≡ header_of name.now }
{
    if name.is(b"State") {
        Header::State
    } else if name.is(b"States") {
        Header::States
    } else if name.is(b"Start") {
        Header::Start
    } else if name.is(b"AP") {
        Header::Ap
    } else if name.is(b"Alias") {
        Header::Alias
    } else if name.is(b"Acceptance") {
        Header::Acceptance
    } else if name.is(b"acc-name") {
        Header::AccName
    } else if name.is(b"tool") {
        Header::Tool
    } else if name.is(b"name") {
        Header::Name
    } else if name.is(b"properties") {
        Header::Properties
    } else if name.is(b"HOA") {
        Header::Opening
    } else {
        Header::Other
    }
}
