//! The value of the option that hides a proposition.

ghost use Rattle.std.specs.Prelude.{◌≡◌, MatchOption};
ghost use Rattle.filter_plan.specs.Hiding.{IsHideOption, suffix};
ghost use Rattle.ap_project.specs.declared.hide.Hide.{Hide};

use crate::reading::OptionValue;
use crate::{Hidden, UsageFault};
use ap_project::Hide;
use aut_base::Text;
use std::alloc::Global;
use word_syntax::read_name;

impl OptionValue for Hidden {
    ghost is_read = { IsHideOption };

    /// The proposition that the text names, with how it is hidden.
    fn read(alloc: Global, text: &str) -> Result<Hidden, UsageFault> {
        let spelled = Text::from_bytes(alloc, text.as_bytes())?;
        let Some((name, size)) = read_name(alloc, &spelled)? else {
            return Err(UsageFault::Usage);
        };
        match way(&spelled.as_bytes()[size..]) {
            Some(how) => Ok(Hidden { name, how }),
            None => Err(UsageFault::Usage),
        }
    }
}

/// How a proposition is hidden, by the text after its name.
fn way(rest: &[u8]) -> Option<Hide>
    ensures { MatchOption result ((how : Hide) → rest.now ≡ suffix how → ⊥) (λ how. rest.now ≡ suffix how) }
{
    match rest {
        b"" => Some(Hide::Any),
        b"=0" => Some(Hide::Absent),
        b"=1" => Some(Hide::Present),
        _ => None,
    }
}
