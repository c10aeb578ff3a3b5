//! The file of several blocks, and its bytes.

use aut_io::Sink;
use real_io::RealSink;
use row_files::Fault;
use std::alloc::Global;
use std::io::Write;

/// Its name.
pub(crate) const NAME: &str = "blocks.bytes";

/// The size of the file: three blocks and a part of a fourth.
pub(crate) const SIZE: u32 = 200_001;

/// The size of the pieces that are written.
const PIECE: u32 = 7_001;

/// The byte at this index of the file. No two blocks are equal.
pub(crate) fn pattern(place: u32) -> u8 {
    (place % 251) as u8
}

/// Writes the bytes of the file piece by piece.
pub(crate) fn write_pattern<W: Write + Drop>(alloc: Global, writer: W) -> Result<(), Fault> {
    write_pieces(&mut RealSink::new(writer), &mut Vec::new(alloc))
}

fn write_pieces<S: Sink>(sink: &mut S, piece: &mut Vec<u8>) -> Result<(), Fault> {
    for place in 0..SIZE {
        piece.push(pattern(place))?;
        if place % PIECE == PIECE - 1 {
            write(sink, piece)?;
            piece.clear();
        }
    }
    write(sink, piece)
}

fn write<S: Sink>(sink: &mut S, piece: &[u8]) -> Result<(), Fault> {
    match sink.write(piece) {
        Ok(()) => Ok(()),
        Err(_) => Err(Fault::Failed),
    }
}

/// How many of these bytes, from the first on, agree with the file.
pub(crate) fn count_pattern(bytes: &[u8]) -> u32 {
    let mut count = 0u32;
    for byte in bytes {
        if *byte != pattern(count) {
            break;
        }
        count = count.saturating_add(1);
    }
    count
}
