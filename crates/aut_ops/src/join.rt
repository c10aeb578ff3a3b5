//! How a product joins the two conditions: by And for the intersection, by Or for the union.

ghost use Rattle.std.specs.Prelude.{◌≡◌, ◌-◌, ◌^◌, IfOk};
ghost use Rattle.acc_forms.specs.Shift.{shift};
ghost use Rattle.aut_base.specs.Formula.{SetsBelow, formula_tree};

use acc_forms::{conj, disj, shift};
use aut_base::{Formula, Memory};
use std::alloc::Global;

/// The connective by which a product joins the conditions.
#[derive(Clone, Copy)]
pub(crate) enum Join {
    /// Both have to be met.
    All,
    /// One of them has to be met.
    Any,
}

impl Join {
    ghost use Rattle.aut_ops.specs.inner.Joins.{join_of};

    /// The two conditions joined, the numbers of the second's sets raised by this.
    pub(crate) fn condition(
        self,
        alloc: Global,
        f: &Formula,
        g: &Formula,
        by: u32,
    ) -> Result<Formula, Memory>
        requires { SetsBelow (2 ^ 32 - by) (formula_tree g.now) }
        ensures { IfOk result (λ new. formula_tree new ≡ join_of self (formula_tree f.now) (shift by (formula_tree g.now))) }
    {
        let second = shift(alloc, g, by)?;
        match self {
            Join::All => conj(alloc, f, &second),
            Join::Any => disj(alloc, f, &second),
        }
    }
}
