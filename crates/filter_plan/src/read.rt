//! From the words to the plan.

ghost use Rattle.std.specs.Prelude.{◌≡◌, IfOk, IsErrOf};
ghost use Rattle.filter_plan.specs.Words.{IsPlan};
ghost use Rattle.filter_plan.specs.declared.plan.Plan.{Plan};

use crate::UsageFault;
use crate::matching::{decoded, parsed};
use crate::plan::{Plan, read_options};
use crate::rules::keeps_rules;
use aut_base::Words;
use std::alloc::Global;

/// The plan of the words after the program's name, or `Usage` exactly where they are none.
pub fn read_plan(alloc: Global, words: &Words) -> Result<Plan, UsageFault>
    ensures plan { IfOk result (IsPlan words.now) }
    ensures usage { IsErrOf result UsageFault.Usage → (plan : Plan) → IsPlan words.now plan → ⊥ }
{
    let texts = decoded(alloc, words.as_slice())?;
    let matches = parsed(alloc, texts.as_slice())?;
    let plan = read_options(alloc, &matches)?;
    if !keeps_rules(&plan) {
        return Err(UsageFault::Usage);
    }
    Ok(plan)
}
