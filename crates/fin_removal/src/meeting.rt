//! Which edges meet which literals.

ghost use Rattle.std.specs.Prelude.{◌≡◌, filter, not, IfOk};
ghost use Rattle.std.specs.List.{list_all};
ghost use Rattle.fin_removal.specs.Meeting.{fins, infs, is_inf, meets, meets_at};

use acc_forms::{Literal, Literals};
use aut_base::{Marks, Memory};
use std::alloc::Global;

/// Whether an edge with these marks meets the literal.
fn meets(literal: Literal, marks: &Marks) -> bool
    ensures { result ≡ meets marks.now literal }
{
    match literal {
        Literal::Inf { set, neg } => { if neg { !marks.has(set) } else { marks.has(set) } }
        Literal::Fin { set, neg } => { if neg { marks.has(set) } else { !marks.has(set) } }
    }
}

/// Whether an edge with these marks meets the literal of this index. Where there is no such literal, each edge does.
pub fn meets_at(literals: &Literals, place: usize, marks: &Marks) -> bool
    ensures { result ≡ meets_at literals.now place marks.now }
{
    if place < literals.len() {
        meets(*literals.at(place), marks)
    } else {
        true
    }
}

/// Whether an edge with these marks meets all of the literals.
pub(crate) fn meets_all(literals: &Literals, marks: &Marks) -> bool
    ensures { result ≡ list_all (meets marks.now) literals.now }
{
    'literals: for literal in literals.as_slice() {
        if !meets(*literal, marks) {
            return false;
        }
    }
    true
}

fn is_inf(literal: Literal) -> bool
    ensures { result ≡ is_inf literal }
{
    matches!(literal, Literal::Inf { .. })
}

/// The Inf literals of a term, in order.
pub(crate) fn infs(alloc: Global, term: &Literals) -> Result<Literals, Memory>
    ensures { IfOk result (λ found. found ≡ infs term.now) }
{
    let mut found = Literals::new(alloc);
    'literals: for literal in term.as_slice() {
        if !is_inf(*literal) {
            continue;
        }
        found.push(*literal)?;
    }
    Ok(found)
}

/// The Fin literals of a term, in order.
pub(crate) fn fins(alloc: Global, term: &Literals) -> Result<Literals, Memory>
    ensures { IfOk result (λ found. found ≡ fins term.now) }
{
    let mut found = Literals::new(alloc);
    'literals: for literal in term.as_slice() {
        if is_inf(*literal) {
            continue;
        }
        found.push(*literal)?;
    }
    Ok(found)
}
