//! Reduction of lasso words.

ghost use Rattle.std.specs.Prelude.{◌↔◌, IfOk};
ghost use Rattle.aut_base.specs.Acceptance.{Accepts};
ghost use Rattle.aut_base.specs.Automaton.{Automaton as AutomatonTree};
ghost use Rattle.aut_base.specs.Word.{IsReduced, SpellsSame};

use crate::letters::{before, behind, push_copies};
use crate::period::{root_size, shared_end};
use aut_base::{Lasso, Letters, Memory};
use std::alloc::Global;

/// The reduced lasso word (shortest stem and cycle) of the same infinite word. Each automaton accepts both or neither.
pub fn reduce(alloc: Global, word: &Lasso) -> Result<Lasso, Memory>
    ensures same { IfOk result (λ new. SpellsSame new.stem new.cycle word.now.stem word.now.cycle) }
    ensures reduced { IfOk result (λ new. IsReduced new.stem new.cycle) }
    ensures accepted { IfOk result (λ new. (a : AutomatonTree) → Accepts a new.stem new.cycle ↔ Accepts a word.now.stem word.now.cycle) }
{
    let letters = word.cycle.as_slice();
    let root = before(letters, root_size(alloc, letters)?);
    let shared = shared_end(word.stem.as_slice(), root);
    let mut stem = Letters::new(alloc);
    push_copies(alloc, &mut stem, before(word.stem.as_slice(), shared.kept))?;
    let mut cycle = Letters::new(alloc);
    push_copies(alloc, &mut cycle, behind(root, shared.from))?;
    push_copies(alloc, &mut cycle, before(root, shared.from))?;
    Ok(Lasso { stem, cycle })
}
