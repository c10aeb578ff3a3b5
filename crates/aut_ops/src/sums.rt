//! The sum of two automata.

ghost use Rattle.std.specs.Prelude.{◌≡◌, ◌+◌, ◌<◌, ◌≤◌, ◌^◌, ◌-◌, ◌++◌, All, IfOk, IsErrOf, OnOk, false, length, map};
ghost use Rattle.acc_forms.specs.Joined.{conj, disj};
ghost use Rattle.acc_forms.specs.Shift.{shift};
ghost use Rattle.aut_base.specs.Formula.{Fin, Inf, SetsBelow, formula_tree};
ghost use Rattle.aut_base.specs.declared.limit.TheConstants.{MOST_NAMES};
ghost use Rattle.aut_core.specs.SymbolicAutomata.{automaton_of};
ghost use Rattle.aut_core.specs.OtherNames.{HaveBoth, joined_names, over_names};
ghost use Rattle.aut_core.specs.declared.join.NameFault.{NameFault};
ghost use Rattle.aut_ops.specs.Languages.{AcceptsEither};
ghost use Rattle.aut_ops.specs.Products.{over_both};
ghost use Rattle.aut_ops.specs.Sums.{side_by_side};
ghost use Rattle.aut_ops.specs.inner.Linked.{moved_link};
ghost use Rattle.label_guards.specs.Store.{Keeps};

use crate::copies::push_links;
use crate::shared::share;
use acc_forms::{conj, disj, shift};
use aut_base::{Formula, Marks, Memory, Names, Numbers};
use aut_core::{Automaton, Link, Links, NameFault, copy_names, copy_numbers, join_names};
use std::alloc::Global;

/// The sum: an automaton that accepts the union of the two languages. The second's states follow the first's. Each edge of the
/// second is in a fresh set, by which the condition tells runs of the one from runs of the other.
pub fn sum(alloc: Global, a: &Automaton, b: &Automaton) -> Result<Automaton, NameFault>
    requires states { a.now.states + b.now.states < 2 ^ 32 }
    requires sets { a.now.sets + b.now.sets + 1 < 2 ^ 32 }
    ensures shape { IfOk result (λ made. automaton_of made ≡ side_by_side
        (over_both (automaton_of a.now) (automaton_of b.now) (automaton_of a.now))
        (over_both (automaton_of a.now) (automaton_of b.now) (automaton_of b.now))) }
    ensures accepts { IfOk result (λ made. AcceptsEither (automaton_of made) (automaton_of a.now) (automaton_of b.now)) }
    ensures within { OnOk result (length (joined_names a.now.names b.now.names) ≤ MOST_NAMES) }
    ensures names { IsErrOf result NameFault.Names → MOST_NAMES < length (joined_names a.now.names b.now.names) }
{
    let names = join_names(alloc, a.names(), b.names())?;
    Ok(sum_over(alloc, a, b, &names)?)
}

/// The sum over the joint names of both.
fn sum_over(alloc: Global, a: &Automaton, b: &Automaton, names: &Names) -> Result<Automaton, Memory>
    requires both { HaveBoth a.now.names b.now.names names.now }
    requires few { length names.now ≤ MOST_NAMES }
    requires states { a.now.states + b.now.states < 2 ^ 32 }
    requires sets { a.now.sets + b.now.sets + 1 < 2 ^ 32 }
    ensures shape { IfOk result (λ made. automaton_of made ≡ side_by_side (over_names names.now (automaton_of a.now)) (over_names names.now (automaton_of b.now))) }
    ensures accepts { IfOk result (λ made. AcceptsEither (automaton_of made) (automaton_of a.now) (automaton_of b.now)) }
{
    let both = share(alloc, a, b, names)?;
    side_by_side(alloc, &both.first, both.second(b))
}

/// The first automaton followed by the second, whose guards the first's store has.
fn side_by_side(alloc: Global, a: &Automaton, b: &Automaton) -> Result<Automaton, Memory>
    requires names { b.now.names ≡ a.now.names }
    requires store { Keeps b.now.store a.now.store }
    requires states { a.now.states + b.now.states < 2 ^ 32 }
    requires sets { a.now.sets + b.now.sets + 1 < 2 ^ 32 }
    ensures shape { IfOk result (λ made. automaton_of made ≡ side_by_side (automaton_of a.now) (automaton_of b.now)) }
    ensures accepts { IfOk result (λ made. AcceptsEither (automaton_of made) (automaton_of a.now) (automaton_of b.now)) }
{
    a.well_formedness();
    b.well_formedness();
    let states = a.states();
    let sets = a.sets();
    let fresh = sets + b.sets();
    let mut links = Links::new(alloc);
    push_links(&mut links, a.links())?;
    push_moved(alloc, &mut links, b.links(), states, sets, fresh)?;
    let starts = joined_starts(a.starts(), b.starts(), states)?;
    let formula = either_condition(alloc, a.formula(), b.formula(), sets, fresh)?;
    let names = copy_names(a.names())?;
    let guards = a.guards().copy(alloc)?;
    Automaton::from_parts(
        alloc,
        names,
        guards,
        states + b.states(),
        starts,
        links,
        fresh + 1,
        formula,
    )
}

/// Adds the links with the numbers of their states and sets raised, each also in the fresh set.
fn push_moved(
    alloc: Global,
    links: &mut Links,
    more: &[Link],
    states: u32,
    sets: u32,
    fresh: u32,
) -> Result<(), Memory>
    requires from { All (λ l. l.from + states < 2 ^ 32) more.now }
    requires to { All (λ l. l.to + states < 2 ^ 32) more.now }
    requires marks { All (λ l. All (λ mark. mark + sets < fresh) l.marks) more.now }
    ensures { OnOk result (links.new ≡ links.old ++ map (moved_link states sets fresh) more.now) }
{
    let none = Marks::new(alloc);
    'links: for link in more {
        let mut marks = none.joint(&link.marks, sets)?;
        marks.push(fresh)?;
        links.push(Link {
            from: link.from + states,
            guard: link.guard,
            to: link.to + states,
            marks,
        })?;
    }
    Ok(())
}

/// The starts, and after them others, raised by this number.
fn joined_starts(starts: &Numbers, others: &Numbers, by: u32) -> Result<Numbers, Memory>
    requires { All (λ start. start + by < 2 ^ 32) others.now }
    ensures { IfOk result (λ all. all ≡ starts.now ++ map (λ start. start + by) others.now) }
{
    let mut all = copy_numbers(starts)?;
    'others: for start in others.as_slice() {
        all.push(*start + by)?;
    }
    Ok(all)
}

/// The first condition and `Fin` of the fresh set, or the second, with its sets raised by this number, and `Inf` of it.
fn either_condition(
    alloc: Global,
    f: &Formula,
    g: &Formula,
    by: u32,
    fresh: u32,
) -> Result<Formula, Memory>
    requires { SetsBelow (2 ^ 32 - by) (formula_tree g.now) }
    ensures { IfOk result (λ new. formula_tree new ≡ disj (conj (formula_tree f.now) (Fin fresh false)) (conj (shift by (formula_tree g.now)) (Inf fresh false))) }
{
    let never = Formula::Fin {
        set: fresh,
        neg: false,
    };
    let always = Formula::Inf {
        set: fresh,
        neg: false,
    };
    let first = conj(alloc, f, &never)?;
    let second = conj(alloc, &shift(alloc, g, by)?, &always)?;
    disj(alloc, &first, &second)
}
