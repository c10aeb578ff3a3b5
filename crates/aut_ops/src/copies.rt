//! Copies of links.

ghost use Rattle.std.specs.Prelude.{◌≡◌, ◌++◌, OnOk};

use aut_base::Memory;
use aut_core::{Link, Links, copy_link};

/// Adds copies of the links.
pub(crate) fn push_links(links: &mut Links, more: &[Link]) -> Result<(), Memory>
    ensures { OnOk result (links.new ≡ links.old ++ more.now) }
{
    'links: for link in more {
        links.push(copy_link(link)?)?;
    }
    Ok(())
}
