//! The joint list of names of two automata.

ghost use Rattle.std.specs.Prelude.{◌≡◌, ◌≤◌, ◌<◌, IfOk, OnOk, IsErrOf, length};
ghost use Rattle.aut_base.specs.declared.limit.TheConstants.{MOST_NAMES};
ghost use Rattle.aut_core.specs.OtherNames.{HaveBoth, joined_names};
ghost use Rattle.aut_core.specs.declared.join.NameFault.{NameFault};

use crate::copies::copy_names;
use aut_base::{MOST_NAMES, Memory, Names};
use std::alloc::Global;

/// Why there is no joint list of names.
#[derive(Clone, Copy, Debug, PartialEq, Eq)]
pub enum NameFault {
    /// There are more than an automaton may have.
    Names,
    /// Want of memory.
    Memory,
}

impl From<Memory> for NameFault {
    ghost from_gives = { λ _ fault. fault ≡ NameFault.Memory };

    fn from(_want: Memory) -> NameFault {
        NameFault::Memory
    }
}

/// The names of the first list, then those of the second that the first lacks, in order.
pub fn join_names(alloc: Global, a: &Names, b: &Names) -> Result<Names, NameFault>
    ensures joined { IfOk result (λ names. names ≡ joined_names a.now b.now) }
    ensures both { IfOk result (HaveBoth a.now b.now) }
    ensures within { OnOk result (length (joined_names a.now b.now) ≤ MOST_NAMES) }
    ensures names { IsErrOf result NameFault.Names → MOST_NAMES < length (joined_names a.now b.now) }
{
    let names = names_of_both(alloc, a, b)?;
    if names.len() > MOST_NAMES as usize {
        return Err(NameFault::Names);
    }
    Ok(names)
}

/// The same, without a limit.
fn names_of_both(alloc: Global, a: &Names, b: &Names) -> Result<Names, Memory>
    ensures joined { IfOk result (λ names. names ≡ joined_names a.now b.now) }
    ensures both { IfOk result (HaveBoth a.now b.now) }
{
    let mut names = copy_names(a)?;
    'others: for name in b.as_slice() {
        if a.has(name) {
            continue;
        }
        names.push(name.copy(alloc)?)?;
    }
    Ok(names)
}
