//! Breadth-first exploration of a transition system.

ghost use Rattle.std.specs.Prelude.{◌≡◌, ◌⊎◌, ◌+◌, ◌++◌, ◌<◌, ◌≤◌, ◌^◌, ℕ, List, None, Some, true, false, IfErr, IfOk, OnOk, length, map, slice_get};
ghost use Rattle.std.specs.List.{position_or_len};
ghost use Rattle.exploration.specs.Explorations.{IsFaultMet, IsSound, Spreads, transition_of, rules_of, stage_of};
ghost use Rattle.exploration.specs.TransitionFunctions.{AreClassHandles, KeepsSystem};
ghost use Rattle.exploration.specs.Reached.{IsCaused, IsExplored, class_counts};
ghost use Rattle.exploration.specs.Turns.{EndsWith, begin, has_room, with_new};
ghost use Rattle.exploration.specs.declared.fault.Fault.{Fault};

use crate::fault::Fault;
use crate::limits::Limits;
use crate::system::TransitionSystem;
use aut_base::Memory;
use indexmap::IndexSet;
use std::alloc::Global;
use std::hash::Hash;

/// An edge of what is explored: the step from the state at an index, for the class of this number, to the state at another index,
/// with the step's output.
#[derive(Clone, Copy, Debug)]
pub struct Edge<C, N> {
    pub from: u32,
    pub number: u32,
    pub class: C,
    pub output: N,
    pub to: u32,
}

/// The states that are reached, in the order in which they were found, and the edges.
#[derive(Drop)]
pub struct Explored<T, C, N> {
    pub states: Vec<T>,
    pub edges: Vec<Edge<C, N>>,
}

/// The states that were found so far, in order, and the edges.
// Why so: 'Where `indexmap` stands, and where std does' in docs/DECISIONS.md.
#[derive(Drop)]
struct Exploration<T: Eq + Hash, C, N> {
    states: IndexSet<T>,
    edges: Vec<Edge<C, N>>,
}

/// Explores in breadth-first order what the system reaches from the start. The states are expanded one after another. The classes of
/// a state are counted, and refused as `Classes` where those of all states so far are more than the limit. Then the step for each
/// class is taken, in order: it is refused as `StepFailed` where it fails, and as `States` where it leads to a new state and as many
/// states as the limit are listed already. The first of these that occurs ends the exploration.
pub fn explore<S: TransitionSystem>(
    alloc: Global,
    system: &mut S,
    start: S::State,
    limits: Limits,
) -> Result<Explored<S::State, S::Class, S::Output>, Fault>
    requires fits { S.fits system.old (S.seen start) }
    requires room { 0 < limits.states }
    ensures frame { S.frame system.new ≡ S.frame system.old }
    ensures keeps { KeepsSystem (S.moves system.old) (S.moves system.new) (S.fits system.old) (S.fits system.new) (S.is_class system.old) (S.is_class system.new) }
    ensures ends { IfOk result (λ found. EndsWith (rules_of S.same (S.moves system.old) limits) (S.seen start) (map S.seen found.states.items) (map transition_of found.edges.items)) }
    ensures explored { IfOk result (λ found. IsExplored S.same (S.moves system.old) (S.seen start) (map S.seen found.states.items) (map transition_of found.edges.items)) }
    ensures classes { IfOk result (λ found. class_counts (S.moves system.old) (map S.seen found.states.items) (length (map S.seen found.states.items)) ≤ limits.classes) }
    ensures sound { IfOk result (λ found. IsSound (S.fits system.new) (S.is_class system.new) (S.is_output (S.frame system.old)) limits.states (map S.seen found.states.items) found.edges.items) }
    ensures meets { IfErr result (IsFaultMet (rules_of S.same (S.moves system.old) limits) (begin (S.seen start))) }
    ensures caused { IfErr result (IsCaused (rules_of S.same (S.moves system.old) limits) (S.seen start)) }
{
    let mut found = Exploration {
        states: IndexSet::new(alloc),
        edges: Vec::new(alloc),
    };
    list(&mut found.states, start, limits.states)?;
    fill(alloc, system, &mut found, limits)?;
    Ok(Explored {
        states: in_order(alloc, found.states)?,
        edges: found.edges,
    })
}

/// Expands the listed states one after another, from the first, and also those that are listed on the way.
fn fill<S: TransitionSystem>(
    alloc: Global,
    system: &mut S,
    found: &mut Exploration<S::State, S::Class, S::Output>,
    limits: Limits,
) -> Result<(), Fault>
    requires sound { IsSound (S.fits system.old) (S.is_class system.old) (S.is_output (S.frame system.old)) limits.states (map S.seen found.old.states.keys) found.old.edges.items }
    ensures frame { S.frame system.new ≡ S.frame system.old }
    ensures keeps { KeepsSystem (S.moves system.old) (S.moves system.new) (S.fits system.old) (S.fits system.new) (S.is_class system.old) (S.is_class system.new) }
    ensures sound { OnOk result (IsSound (S.fits system.new) (S.is_class system.new) (S.is_output (S.frame system.old)) limits.states (map S.seen found.new.states.keys) found.new.edges.items) }
    ensures ends { OnOk result ((start : S.Seen) → stage_of (map S.seen found.old.states.keys) found.old.edges.items 0 0 None ≡ begin start
        → EndsWith (rules_of S.same (S.moves system.old) limits) start (map S.seen found.new.states.keys) (map transition_of found.new.edges.items)) }
    ensures meets { IfErr result (IsFaultMet (rules_of S.same (S.moves system.old) limits) (stage_of (map S.seen found.old.states.keys) found.old.edges.items 0 0 None)) }
{
    let mut sum = 0;
    let mut done = 0;
    'states: while done < found.states.len() {
        let state = &found.states.as_slice()[done];
        let Some(classes) = system.classes(alloc, state, limits.classes - sum)? else {
            return Err(Fault::Classes);
        };
        sum += classes.len() as u32;
        spread(
            alloc,
            system,
            found,
            done as u32,
            classes.as_slice(),
            limits,
        )?;
        done += 1;
    }
    Ok(())
}

/// Takes the steps for these classes of the state at this index.
fn spread<S: TransitionSystem>(
    alloc: Global,
    system: &mut S,
    found: &mut Exploration<S::State, S::Class, S::Output>,
    at: u32,
    classes: &[S::Class],
    limits: Limits,
) -> Result<(), Fault>
    requires at { at < length found.old.states.keys }
    requires classes { (x : S.Seen) → slice_get (map S.seen found.old.states.keys) at ≡ Some x → AreClassHandles (S.is_class system.old x) ((S.moves system.old).count x) classes.now }
    requires countable { length classes.now < 2 ^ 32 }
    requires sound { IsSound (S.fits system.old) (S.is_class system.old) (S.is_output (S.frame system.old)) limits.states (map S.seen found.old.states.keys) found.old.edges.items }
    ensures frame { S.frame system.new ≡ S.frame system.old }
    ensures keeps { KeepsSystem (S.moves system.old) (S.moves system.new) (S.fits system.old) (S.fits system.new) (S.is_class system.old) (S.is_class system.new) }
    ensures sound { OnOk result (IsSound (S.fits system.new) (S.is_class system.new) (S.is_output (S.frame system.old)) limits.states (map S.seen found.new.states.keys) found.new.edges.items) }
    ensures spreads { OnOk result (Spreads (rules_of S.same (S.moves system.old) limits) at 0 (length classes.now)
        (map S.seen found.old.states.keys) found.old.edges.items
        (map S.seen found.new.states.keys) found.new.edges.items) }
    ensures meets { IfErr result (λ f. (x : S.Seen) (sum : ℕ) → slice_get (map S.seen found.old.states.keys) at ≡ Some x
        → IsFaultMet (rules_of S.same (S.moves system.old) limits) (stage_of (map S.seen found.old.states.keys) found.old.edges.items sum (at + 1) (Some (x, 0))) f) }
    ensures longer { OnOk result (length (map S.seen found.old.states.keys) ≤ length (map S.seen found.new.states.keys)) }
{
    'classes: for number in 0..classes.len() {
        let class = classes[number];
        let state = &found.states.as_slice()[at as usize];
        let Some((to, output)) = system.step(alloc, state, number as u32, class)? else {
            continue;
        };
        let place = list(&mut found.states, to, limits.states)?;
        found.edges.push(Edge {
            from: at,
            number: number as u32,
            class,
            output,
            to: place,
        })?;
    }
    Ok(())
}

/// The index of the state in the list, to which it is added unless it is there.
fn list<T: Eq + Hash + Drop>(states: &mut IndexSet<T>, state: T, most: u32) -> Result<u32, Fault>
    requires { length states.old.keys ≤ most }
    ensures states { OnOk result (states.new.keys ≡ with_new T.eq states.old.keys state) }
    ensures place { IfOk result (λ place. place ≡ position_or_len (T.eq state) states.old.keys) }
    ensures few { OnOk result (length states.new.keys ≤ most) }
    ensures room { OnOk result (has_room T.eq most states.old.keys state ≡ true) }
    ensures fault { IfErr result (λ f. (f ≡ Fault.Memory) ⊎ ((f ≡ Fault.States) × (has_room T.eq most states.old.keys state ≡ false))) }
{
    let (place, _) = states.insert_full(state)?;
    if states.len() > most as usize {
        return Err(Fault::States);
    }
    Ok(place as u32)
}

/// The states of the list, in order.
fn in_order<T: Eq + Hash + Drop>(alloc: Global, states: IndexSet<T>) -> Result<Vec<T>, Memory>
    ensures { IfOk result (λ all. all.items ≡ states.keys) }
{
    Ok(states.into_iter().collect(alloc)?)
}
