//! The indices of names.

ghost use Rattle.std.specs.Prelude.{◌<◌, ◌^◌, length, IfOk};
ghost use Rattle.word_syntax.specs.inner.Chains.{IsNamePlaced};

use aut_base::{Memory, Names, Text};

/// The index of the name in the list, to which it is added if it isn't there.
pub(crate) fn place(names: &mut Names, name: Text) -> Result<u32, Memory>
    requires { length names.old < 2 ^ 32 }
    ensures { IfOk result (λ place. IsNamePlaced names.old names.new name place) }
{
    match names.position(&name) {
        Some(place) => Ok(place),
        None => {
            let place = names.len() as u32;
            names.push(name)?;
            Ok(place)
        }
    }
}
