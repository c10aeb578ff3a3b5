//! Sources of one text: one that gives byte after byte, and one whose text comes in two pieces, each of them as bytes at hand.

ghost use Rattle.std.specs.Prelude.{◌≡◌, [], ◌∷◌, IfOk};

use crate::reading::read;
use crate::script::{Counts, Script};
use aut_base::{Memory, Names, Seq, Text};
use aut_io::{Inputs, MemInputs};
use real_io::{Opener, RealInputs};
use row_files::Answer;
use std::alloc::Global;
use std::io::{self, Chain, ErrorKind, Read};

/// Adds the answers of a script where the text comes byte after byte.
pub(crate) fn read_bytes(
    alloc: Global,
    answer: &mut Answer,
    script: Script,
    text: &[u8],
) -> Counts {
    match in_memory(alloc, text, script.failing.unwrap_or(u32::MAX)) {
        Ok(mut inputs) => {
            let _ = inputs.open(&Text::new(alloc));
            read(alloc, answer, script, &mut inputs)
        }
        Err(_) => without_memory(answer),
    }
}

/// Tells that memory was wanting for a source.
fn without_memory(answer: &mut Answer) -> Counts {
    answer.lack_memory();
    Counts::none()
}

/// A source of one text, whose name is empty. It fails at this call: call 0 opens it, and call k reads its k-th byte.
fn in_memory(alloc: Global, text: &[u8], failing: u32) -> Result<MemInputs, Memory> {
    let names = Names::from_texts(one(alloc, Text::new(alloc))?);
    let texts = one(alloc, Text::from_bytes(alloc, text)?)?;
    Ok(MemInputs::new(names, texts, one(alloc, failing)?))
}

/// A list of this item alone.
fn one<T: Drop>(alloc: Global, item: T) -> Result<Seq<T>, Memory>
    ensures { IfOk result (λ list. list ≡ item ∷ []) }
{
    let mut list = Seq::new(alloc);
    list.push(item)?;
    Ok(list)
}

/// Opens nothing: the text is standard input.
#[derive(Clone, Copy)]
pub(crate) struct NoFiles {
    calls: u64,
}

impl Opener for NoFiles {
    type File = io::Empty;

    ghost answers = { λ _ _ _. Unit {0} };

    ghost calls = { λ s. s.calls };

    fn open(&mut self, _name: &str) -> io::Result<io::Empty> {
        self.calls = self.calls.saturating_add(1);
        Err(io::Error::from(ErrorKind::NotFound))
    }
}

/// A source whose text comes in two pieces.
type Pieces<'a> = RealInputs<Chain<&'a [u8], &'a [u8]>, NoFiles>;

/// Adds the answers of a script where the text comes in these two pieces. All bytes of a piece are at hand at once.
pub(crate) fn read_pieces(
    alloc: Global,
    answer: &mut Answer,
    script: Script,
    pieces: (&[u8], &[u8]),
) -> Counts {
    match in_pieces(alloc, pieces.0, pieces.1) {
        Ok(mut inputs) => read_standard(alloc, answer, script, &mut inputs),
        Err(_) => without_memory(answer),
    }
}

/// A source of these two pieces, not opened yet.
fn in_pieces<'a>(alloc: Global, front: &'a [u8], back: &'a [u8]) -> Result<Pieces<'a>, Memory> {
    RealInputs::new(alloc, front.chain(back), NoFiles { calls: 0 })
}

/// Adds the answers of a script, where the text is standard input.
fn read_standard(
    alloc: Global,
    answer: &mut Answer,
    script: Script,
    inputs: &mut Pieces<'_>,
) -> Counts {
    match Text::from_bytes(alloc, b"-") {
        Ok(name) => {
            let _ = inputs.open(&name);
            read(alloc, answer, script, inputs)
        }
        Err(_) => without_memory(answer),
    }
}
