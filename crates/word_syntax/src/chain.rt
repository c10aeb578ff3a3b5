//! The parts of a conjunction or disjunction while it is read.

ghost use Rattle.std.specs.Prelude.{◌≡◌, [], ◌∷◌, ◌++◌, OnOk};
ghost use Rattle.aut_base.specs.CanonicalLabel.{all_of, one_of};
ghost use Rattle.aut_base.specs.Label.{label_tree};
ghost use Rattle.word_syntax.specs.inner.Chains.{chain_list};
ghost use Rattle.word_syntax.specs.inner.Machine.{is_none};

use aut_base::{Label, Labels, Memory};
use std::alloc::Global;
use std::mem;

/// The parts so far.
#[derive(Drop)]
pub(crate) enum Chain {
    Nothing,
    One(Label),
    Several(Box<Labels>),
}

#[tactic(auto, using(aut_base::proofs::trees::LabelTrees::label_trees))]
impl Chain {
    /// Adds a part at the end.
    pub(crate) fn add(&mut self, alloc: Global, label: Label) -> Result<(), Memory>
        ensures { OnOk result (chain_list self.new ≡ chain_list self.old ++ label_tree label ∷ []) }
    {
        *self = match mem::replace(self, Chain::Nothing) {
            Chain::Nothing => Chain::One(label),
            Chain::One(first) => {
                let pair = Labels::pair(alloc, first, label);
                Chain::Several(Box::new(alloc, pair)?)
            }
            Chain::Several(mut labels) => {
                labels.push(label)?;
                Chain::Several(labels)
            }
        };
        Ok(())
    }

    /// Their conjunction.
    pub(crate) fn all(self) -> Label
        ensures { label_tree result ≡ all_of (chain_list self) }
    {
        match self {
            Chain::Nothing => Label::True,
            Chain::One(label) => label,
            Chain::Several(labels) => Label::And(labels),
        }
    }

    /// Their disjunction.
    pub(crate) fn one_of(self) -> Label
        ensures { label_tree result ≡ one_of (chain_list self) }
    {
        match self {
            Chain::Nothing => Label::False,
            Chain::One(label) => label,
            Chain::Several(labels) => Label::Or(labels),
        }
    }

    /// Whether there is no part.
    pub(crate) fn is_empty(&self) -> bool
        ensures { result ≡ is_none (chain_list self.now) }
    {
        matches!(self, Chain::Nothing)
    }
}
