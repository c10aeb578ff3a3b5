//! The streams of a plan, and all its files.

ghost use Rattle.std.specs.Prelude.{◌≡◌, ◌<◌, [], All, length};
ghost use Rattle.std.specs.List.{slice_index_or};
ghost use Rattle.autfilt_run.specs.Plans.{files_of, plan_streams};
ghost use Rattle.autfilt_run.specs.Turns.{OpensNext};

use crate::operand_files::{operand_count, operand_file};
use aut_base::{OpenFail, Text};
use aut_io::Inputs;
use filter_plan::Plan;
use std::alloc::Global;

/// How many streams the plan has.
pub(crate) fn stream_count(plan: &Plan) -> usize
    ensures { result ≡ length (plan_streams plan.now) }
{
    match plan.made {
        Some(_) => 1,
        None => plan.streams.len(),
    }
}

/// Opens the stream at this index.
pub(crate) fn open_stream<I: Inputs>(
    alloc: Global,
    plan: &Plan,
    place: usize,
    inputs: &mut I,
) -> Result<(), OpenFail>
    requires place { place < length (plan_streams plan.now) }
    requires names { All I.may_open (plan_streams plan.now) }
    ensures { OpensNext (I.seen inputs.old) (slice_index_or (plan_streams plan.now) place []) result (I.seen inputs.new) }
{
    if plan.made.is_none() {
        return inputs.open(plan.streams.at(place));
    }
    match Text::from_bytes(alloc, b"made") {
        Ok(name) => inputs.open(&name),
        Err(_) => Err(OpenFail::Memory),
    }
}

/// The name of the file at this index, where the operands' files are counted first.
pub(crate) fn file_name(plan: &Plan, place: u128) -> &[u8]
    requires { place < length (files_of plan.now) }
    ensures { result.now ≡ slice_index_or (files_of plan.now) place [] }
{
    let operands = operand_count(plan) as u128;
    if place < operands {
        return operand_file(plan, place as usize).as_bytes();
    }
    // The number of streams fits in 64 bits.
    let _streams = stream_count(plan);
    match plan.made {
        Some(_) => b"made",
        None => plan.streams.at((place - operands) as usize).as_bytes(),
    }
}
