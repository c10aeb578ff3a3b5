//! Set literals: the set of an atom, or its complement where it is negated.

ghost use Rattle.std.specs.Prelude.{◌≡◌, ◌<◌, true, false, All, Contains, MatchOption, length};
ghost use Rattle.lasso_emptiness.specs.inner.Edges.{on_side, marks_of};

use crate::live::EdgeRef;
use aut_base::Marks;
use aut_core::Link;

/// The set literal `k` or `!k` of an atom. An edge satisfies it where it is in the set, or, negated, where it isn't. `Inf` requires
/// that some edge of a cycle satisfies it, `Fin` that none does.
#[derive(Clone, Copy)]
pub(crate) struct SetLiteral {
    pub(crate) set: u32,
    pub(crate) neg: bool,
}

impl SetLiteral {
    /// Whether an edge with these marks satisfies the literal.
    pub(crate) fn has(self, marks: &Marks) -> bool
        ensures { result ≡ on_side self.set self.neg marks.now }
    {
        if self.neg {
            !marks.has(self.set)
        } else {
            marks.has(self.set)
        }
    }

    /// Whether the edge satisfies the literal.
    pub(crate) fn has_edge(self, links: &[Link], edge: EdgeRef) -> bool
        requires { edge.link < length links.now }
        ensures { result ≡ on_side self.set self.neg (marks_of links.now edge) }
    {
        self.has(&links[edge.link].marks)
    }

    /// One of the edges that satisfies the literal, or None where none does.
    pub(crate) fn one_of(self, links: &[Link], edges: &[EdgeRef]) -> Option<EdgeRef>
        requires { All (λ e. e.link < length links.now) edges.now }
        ensures { MatchOption result (All (λ e. on_side self.set self.neg (marks_of links.now e) ≡ false) edges.now)
            (λ e. Contains edges.now e × (on_side self.set self.neg (marks_of links.now e) ≡ true)) }
    {
        'edges: for edge in edges {
            if self.has_edge(links, *edge) {
                return Some(*edge);
            }
        }
        None
    }
}
