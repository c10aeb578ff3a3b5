//! The files of operands, read together.

ghost use Rattle.std.specs.Prelude.{◌≡◌, IfOk, IsErrOf};
ghost use Rattle.clap.specs.Words.{found_of, rows_of};
ghost use Rattle.filter_plan.specs.inner.Groups.{AreOperandOptions};
ghost use Rattle.filter_plan.specs.declared.group.Operands.{Operands};

use crate::UsageFault;
use crate::reading::value_of;
use aut_base::Text;
use clap::ArgMatches;
use std::alloc::Global;

/// The files of operands, but for that of a refutation.
#[derive(Drop)]
pub(crate) struct Operands {
    pub(crate) included_in: Option<Text>,
    pub(crate) equivalent_to: Option<Text>,
    pub(crate) intersect: Option<Text>,
    pub(crate) product: Option<Text>,
    pub(crate) product_or: Option<Text>,
    pub(crate) sum: Option<Text>,
}

/// The files of the options that are given.
pub(crate) fn read_operands(alloc: Global, matches: &ArgMatches) -> Result<Operands, UsageFault>
    ensures reads { IfOk result (AreOperandOptions (rows_of (found_of matches.now))) }
    ensures usage { IsErrOf result UsageFault.Usage → (x : Operands) → AreOperandOptions (rows_of (found_of matches.now)) x → ⊥ }
{
    Ok(Operands {
        included_in: value_of(alloc, matches, "included-in")?,
        equivalent_to: value_of(alloc, matches, "equivalent-to")?,
        intersect: value_of(alloc, matches, "intersect")?,
        product: value_of(alloc, matches, "product")?,
        product_or: value_of(alloc, matches, "product-or")?,
        sum: value_of(alloc, matches, "sum")?,
    })
}
