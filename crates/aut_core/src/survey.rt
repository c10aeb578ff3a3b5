//! Determinism and completeness of edges, decided state by state from the guards of the links.

ghost use Rattle.std.specs.List.{list_any};
ghost use Rattle.std.specs.Prelude.{◌≡◌, ◌↔◌, ◌<◌, ◌||◌, ℕ, Bool, List, All, IfOk, IsTrue, false, length, map};
ghost use Rattle.aut_core.specs.SymbolicAutomata.{edge_of};
ghost use Rattle.aut_core.specs.Index.{IsIndex};
ghost use Rattle.aut_core.specs.Surveys.{AreMetApart, AreSurveyed, IsUnionSurveyed, IsMetAlways, IsSurvey};
ghost use Rattle.label_guards.specs.Guards.{AreNames, IsGuardOf, truth_in};
ghost use Rattle.label_guards.specs.Store.{Has, Keeps};

use crate::link::Link;
use aut_base::{Memory, Names, Places};
use label_guards::{Draft, Guard, Guards};

/// Whether the links of each state that was surveyed are disjoint (no letter satisfies two of their guards) and exhaustive (each
/// letter satisfies one).
#[derive(Clone, Copy)]
pub(crate) struct GuardSurvey {
    pub(crate) disjoint: bool,
    pub(crate) exhaustive: bool,
}

/// The disjunction of some links' guards, where it is still needed, and whether the links are disjoint.
#[derive(Clone, Copy)]
struct Met {
    guard: Guard,
    disjoint: bool,
}

/// The survey of all states. `rows` has the index of each state's first link.
pub(crate) fn survey_states(
    draft: &mut Draft,
    names: &Names,
    links: &[Link],
    rows: &Places,
    states: u32,
) -> Result<GuardSurvey, Memory>
    requires names { AreNames draft.old.now names.now }
    requires has { All (λ l. Has draft.old.now l.guard) links.now }
    requires rows { IsIndex links.now states rows.now }
    ensures kept { draft.new.kept ≡ draft.old.kept }
    ensures found { IfOk result (AreSurveyed names.now (map (edge_of draft.old.now) links.now) states) }
{
    let mut found = GuardSurvey {
        disjoint: true,
        exhaustive: true,
    };
    'states: for state in 0..states {
        let start = *rows.at(state as usize);
        let end = *rows.at(state as usize + 1);
        found = survey_state(draft, names, &links[start..end], found)?;
    }
    Ok(found)
}

/// The survey once the links of another state are added.
fn survey_state(
    draft: &mut Draft,
    names: &Names,
    links: &[Link],
    known: GuardSurvey,
) -> Result<GuardSurvey, Memory>
    requires names { AreNames draft.old.now names.now }
    requires has { All (λ l. Has draft.old.now l.guard) links.now }
    ensures kept { draft.new.kept ≡ draft.old.kept }
    ensures keeps { Keeps draft.old.now draft.new.now }
    ensures found { IfOk result (IsSurvey names.now (map (edge_of draft.old.now) links.now) known) }
{
    if links.is_empty() {
        let never = draft.guards().never();
        return Ok(survey_met(draft.guards(), known, never));
    }
    let met = meet(draft, names, links, known)?;
    let known = GuardSurvey {
        disjoint: met.disjoint,
        exhaustive: known.exhaustive,
    };
    Ok(survey_met(draft.guards(), known, met.guard))
}

/// The survey once it is added whether the links of a state, whose guards have this disjunction, are exhaustive.
fn survey_met(guards: &Guards, known: GuardSurvey, met: Guard) -> GuardSurvey
    requires { Has guards.now met }
    ensures disjoint { result.disjoint ≡ known.disjoint }
    ensures exhaustive { (names : List (List ℕ)) → AreNames guards.now names → (IsTrue result.exhaustive ↔ (IsTrue known.exhaustive × IsMetAlways guards.now names met)) }
{
    GuardSurvey {
        disjoint: known.disjoint,
        exhaustive: known.exhaustive && guards.same(met, guards.always()),
    }
}

/// The disjunction of the links' guards, and whether the links are disjoint, given the survey so far. It goes by halves, so that
/// neighbours are joined first, and stops where neither answer can change the survey. Once two links aren't disjoint, guards are
/// joined one after the other, since labels may repeat.
fn meet(draft: &mut Draft, names: &Names, links: &[Link], known: GuardSurvey) -> Result<Met, Memory>
    requires names { AreNames draft.old.now names.now }
    requires has { All (λ l. Has draft.old.now l.guard) links.now }
    requires some { 0 < length links.now }
    ensures kept { draft.new.kept ≡ draft.old.kept }
    ensures keeps { Keeps draft.old.now draft.new.now }
    ensures met { IfOk result (IsUnionSurveyed names.now draft.new.now (map (edge_of draft.old.now) links.now) known) }
{
    let alone = Met {
        guard: links[0].guard,
        disjoint: known.disjoint,
    };
    if links.len() == 1 {
        return Ok(alone);
    }
    if !known.disjoint && !known.exhaustive {
        return Ok(alone);
    }
    if !known.disjoint {
        return meet_in_turn(draft, links);
    }
    let half = links.len() / 2;
    let first = meet(draft, names, &links[..half], known)?;
    let asked = GuardSurvey {
        disjoint: first.disjoint,
        exhaustive: known.exhaustive,
    };
    let second = meet(draft, names, &links[half..], asked)?;
    meet_both(draft, names, first.guard, second, known.exhaustive)
}

/// The same where links that aren't disjoint were found before. Guards that occur again are soon included in the disjunction, which
/// then doesn't change.
fn meet_in_turn(draft: &mut Draft, links: &[Link]) -> Result<Met, Memory>
    requires has { All (λ l. Has draft.old.now l.guard) links.now }
    ensures kept { draft.new.kept ≡ draft.old.kept }
    ensures keeps { Keeps draft.old.now draft.new.now }
    ensures disjoint { IfOk result (λ met. met.disjoint ≡ false) }
    ensures guard { IfOk result (λ met. IsGuardOf draft.new.now (λ on. list_any (λ l. truth_in draft.old.now l.guard on) links.now) met.guard) }
{
    let mut guard = draft.guards().never();
    'links: for link in links {
        guard = draft.or(guard, link.guard)?;
    }
    Ok(Met {
        guard,
        disjoint: false,
    })
}

/// The same of both halves, from the disjunction of the first and the answer for the second, which was given what the first found.
fn meet_both(
    draft: &mut Draft,
    names: &Names,
    first: Guard,
    second: Met,
    exhaustive: bool,
) -> Result<Met, Memory>
    requires names { AreNames draft.old.now names.now }
    requires first { Has draft.old.now first }
    requires second { Has draft.old.now second.guard }
    ensures kept { draft.new.kept ≡ draft.old.kept }
    ensures keeps { Keeps draft.old.now draft.new.now }
    ensures has { IfOk result (λ met. Has draft.new.now met.guard) }
    ensures guard { IfOk result (λ met. IsTrue (second.disjoint || exhaustive)
        → IsGuardOf draft.new.now (λ on. truth_in draft.old.now first on || truth_in draft.old.now second.guard on) met.guard) }
    ensures disjoint { IfOk result (λ met. IsTrue met.disjoint ↔ (IsTrue second.disjoint × AreMetApart draft.old.now names.now first second.guard)) }
{
    if !second.disjoint && !exhaustive {
        return Ok(second);
    }
    let disjoint = still_apart(draft, names, second.disjoint, first, second.guard)?;
    let guard = draft.or(first, second.guard)?;
    Ok(Met { guard, disjoint })
}

/// Whether no letter satisfies both guards, where that is still asked; else false.
fn still_apart(
    draft: &mut Draft,
    names: &Names,
    asked: bool,
    g: Guard,
    h: Guard,
) -> Result<bool, Memory>
    requires names { AreNames draft.old.now names.now }
    requires left { Has draft.old.now g }
    requires right { Has draft.old.now h }
    ensures kept { draft.new.kept ≡ draft.old.kept }
    ensures keeps { Keeps draft.old.now draft.new.now }
    ensures disjoint { IfOk result (λ disjoint. IsTrue disjoint ↔ (IsTrue asked × AreMetApart draft.old.now names.now g h)) }
{
    if !asked {
        return Ok(false);
    }
    let both = draft.and(g, h)?;
    Ok(draft.guards().is_false(both))
}
