//! The atoms of a condition, and terms of them.

ghost use Rattle.std.specs.Prelude.{◌≡◌};
ghost use Rattle.aut_base.specs.Formula.{formula_tree};

use aut_base::{Formula, Seq};

/// An atom of a condition. `neg` is true where `!` is before the set's number.
#[derive(Clone, Copy, Debug, PartialEq, Eq)]
pub enum Literal {
    Inf { set: u32, neg: bool },
    Fin { set: u32, neg: bool },
}

/// A term: a conjunction of atoms.
pub type Literals = Seq<Literal>;

/// Terms, as of a disjunctive normal form.
pub type Terms = Seq<Literals>;

impl Literal {
    ghost use Rattle.acc_forms.specs.Terms.{literal_formula};

    /// The atom as a condition.
    #[tactic(auto, using(aut_base::proofs::trees::FormulaTrees::formula_trees))]
    pub(crate) fn formula(self) -> Formula
        ensures { formula_tree result ≡ literal_formula self }
    {
        match self {
            Literal::Inf { set, neg } => Formula::Inf { set, neg },
            Literal::Fin { set, neg } => Formula::Fin { set, neg },
        }
    }
}
