//! The starts and the names that are described.

ghost use Rattle.std.specs.Prelude.{◌≡◌, ◌≢◌, AllPairs, map, IfOk};
ghost use Rattle.hoa_reader.specs.inner.Numbers.{only_state, without_repeats};

use aut_base::{FewNumbers, Memory, Names, Numbers, Text};
use std::alloc::Global;
use std::collections::BTreeSet;

/// The state of each start, each where it stands first. One alone is looked for among no others.
pub(crate) fn starts_of(alloc: Global, groups: &[&FewNumbers]) -> Result<Numbers, Memory>
    ensures { IfOk result (λ starts. starts ≡ without_repeats (map only_state (map (λ g. g.now) groups.now))) }
{
    let mut starts = Numbers::new(alloc);
    if let [group] = groups {
        starts.push(only_state(group.as_slice()))?;
        return Ok(starts);
    }
    let mut seen = BTreeSet::new(alloc);
    'groups: for group in groups {
        let start = only_state(group.as_slice());
        if !seen.insert(start)? {
            continue;
        }
        starts.push(start)?;
    }
    Ok(starts)
}

/// The state that a start or an edge names.
#[inline]
pub(crate) fn only_state(states: &[u32]) -> u32
    ensures { result ≡ only_state states.now }
{
    match states {
        [state, ..] => *state,
        [] => 0,
    }
}

/// These names, held apart.
pub(crate) fn names_of(alloc: Global, texts: &[Text]) -> Result<Names, Memory>
    requires { AllPairs (λ a b. a ≢ b) texts.now }
    ensures { IfOk result (λ names. names ≡ texts.now) }
{
    let mut names = Names::new(alloc);
    'texts: for text in texts {
        names.push(text.copy(alloc)?)?;
    }
    Ok(names)
}
