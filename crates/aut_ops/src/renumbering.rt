//! New numbers for the flagged states.

ghost use Rattle.std.specs.Prelude.{◌≡◌, ◌<◌, All, IfOk, length, map};
ghost use Rattle.std.specs.List.{range_with_len};
ghost use Rattle.aut_ops.specs.Trimming.{flagged_before};
ghost use Rattle.aut_ops.specs.inner.Renumbering.{new_link, new_number};

use aut_base::{Memory, Numbers};
use aut_core::{Link, Links, copy_marks};
use std::alloc::Global;

/// The new numbers of the flagged states.
#[derive(Drop)]
pub(crate) struct Numbering {
    /// For each state the number of flagged ones before it.
    pub(crate) ranks: Numbers,
    /// The number of flagged states.
    pub(crate) count: u32,
}

/// Numbers the flagged states from 0 in their order.
pub(crate) fn number_flagged(
    alloc: Global,
    states: u32,
    flags: &[bool],
) -> Result<Numbering, Memory>
    requires { length flags.now ≡ states }
    ensures ranks { IfOk result (λ made. made.ranks ≡ map (flagged_before flags.now) (range_with_len 0 (length flags.now))) }
    ensures count { IfOk result (λ made. made.count ≡ flagged_before flags.now (length flags.now)) }
{
    let mut ranks = Numbers::new(alloc);
    let mut count = 0;
    'states: for flag in flags {
        ranks.push(count)?;
        if !*flag {
            continue;
        }
        count += 1;
    }
    Ok(Numbering { ranks, count })
}

/// The new numbers of these states.
pub(crate) fn renumbered(alloc: Global, ranks: &Numbers, states: &[u32]) -> Result<Numbers, Memory>
    requires { All (λ p. p < length ranks.now) states.now }
    ensures { IfOk result (λ new. new ≡ map (new_number ranks.now) states.now) }
{
    let mut new = Numbers::new(alloc);
    'states: for state in states {
        new.push(*ranks.at(*state as usize))?;
    }
    Ok(new)
}

/// The links between the new numbers of their states.
pub(crate) fn renumbered_links(
    alloc: Global,
    ranks: &Numbers,
    links: &[Link],
) -> Result<Links, Memory>
    requires from { All (λ l. l.from < length ranks.now) links.now }
    requires to { All (λ l. l.to < length ranks.now) links.now }
    ensures { IfOk result (λ new. new ≡ map (new_link ranks.now) links.now) }
{
    let mut new = Links::new(alloc);
    'links: for link in links {
        new.push(Link {
            from: *ranks.at(link.from as usize),
            guard: link.guard,
            to: *ranks.at(link.to as usize),
            marks: copy_marks(&link.marks)?,
        })?;
    }
    Ok(new)
}
