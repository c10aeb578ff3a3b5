//! Copies of the parts of an automaton, which is seen by reference, for constructions that make another of them.

ghost use Rattle.std.specs.Prelude.{◌≡◌, IfOk};

use crate::link::{Link, Links};
use aut_base::{Marks, Memory, Names, Numbers, Places};

/// A copy of the names.
pub fn copy_names(names: &Names) -> Result<Names, Memory>
    ensures { IfOk result (λ copy. copy ≡ names.now) }
{
    Ok(names.clone()?)
}

/// A copy of the numbers.
pub fn copy_numbers(numbers: &Numbers) -> Result<Numbers, Memory>
    ensures { IfOk result (λ copy. copy ≡ numbers.now) }
{
    Ok(numbers.clone()?)
}

/// A copy of the indices.
pub(crate) fn copy_places(places: &Places) -> Result<Places, Memory>
    ensures { IfOk result (λ copy. copy ≡ places.now) }
{
    Ok(places.clone()?)
}

/// A copy of the marks.
pub fn copy_marks(marks: &Marks) -> Result<Marks, Memory>
    ensures { IfOk result (λ copy. copy ≡ marks.now) }
{
    Ok(marks.clone()?)
}

/// A copy of the link and its marks.
pub fn copy_link(link: &Link) -> Result<Link, Memory>
    ensures { IfOk result (λ copy. copy ≡ link.now) }
{
    Ok(link.clone()?)
}

/// A copy of the links.
pub(crate) fn copy_links(links: &Links) -> Result<Links, Memory>
    ensures { IfOk result (λ copy. copy ≡ links.now) }
{
    Ok(links.clone()?)
}
