//! A buffer of one block, through which a reader is read.

ghost use Rattle.std.specs.Prelude.{◌≡◌, ◌≢◌, ◌≤◌, ◌<◌, ◌∷◌, [], None, drop, length, IfErr, IfOk, OnErr, OnOk};
ghost use Rattle.std.specs.Io.KnownBytes.{Consumes, IsAtEnd, Keeps, prepend_known};
ghost use Rattle.aut_io.specs.Outside.{Rose};
ghost use Rattle.real_io.specs.Unread.{GivesFirst, held};

use crate::refusals::Refusals;
use aut_base::{Failed, Memory};
use std::alloc::Global;
use std::io::{ErrorKind, Read};
use std::marker::Model;

/// How many bytes are read at once.
const BLOCK: usize = 65536;

/// The block that was read last. Contracts see those of its bytes that were not given yet.
#[derive(Drop)]
pub(crate) struct Block {
    bytes: Vec<u8>,
    /// The bytes from `place` to `end` were not given yet.
    place: usize,
    end: usize,
}

impl Model for Block {
    ghost use Rattle.std.specs.Prelude.{◌≤◌, ◌<◌, ℕ, List, vec_len};
    ghost use Rattle.real_io.specs.Unread.{held};

    ghost Value = { List ℕ };

    ghost view = { λ b. held b.bytes.items b.place b.end };

    ghost invariant = { λ b. (0 < vec_len b.bytes) × (b.place ≤ b.end) × (b.end ≤ vec_len b.bytes) };
}

impl Block {
    /// Allocates the buffer of one block. Nothing is read yet.
    pub(crate) fn new(alloc: Global) -> Result<Self, Memory>
        ensures { IfOk result (λ block. block ≡ []) }
    {
        Ok(Block {
            bytes: vec![in alloc; 0; BLOCK]?,
            place: 0,
            end: 0,
        })
    }

    /// Discards the bytes that were not given yet.
    pub(crate) fn clear(&mut self)
        ensures { self.new ≡ [] }
    {
        self.place = 0;
        self.end = 0;
    }

    /// The next byte, or `None` at the end of the reader: the first of those left in the block and, after them, in the
    /// reader.
    #[inline(always)]
    pub(crate) fn next<R: Read>(
        &mut self,
        reader: &mut R,
        refusals: &mut Refusals,
    ) -> Result<Option<u8>, Failed>
        ensures gives { GivesFirst (prepend_known self.old (R.remaining reader.old)) (prepend_known self.new (R.remaining reader.new)) result }
        ensures end { IfOk result (λ byte. byte ≡ None → self.new ≡ []) }
        ensures failed { OnErr result (Rose refusals.old refusals.new) }
        ensures calm { OnOk result (refusals.new ≡ refusals.old) }
        ensures later { refusals.old ≤ refusals.new }
    {
        if self.place < self.end {
            return Ok(Some(self.give()));
        }
        self.fill(reader, refusals)?;
        if self.place == self.end {
            return Ok(None);
        }
        Ok(Some(self.give()))
    }

    /// The bytes that the block holds.
    #[inline]
    pub(crate) fn ahead(&self) -> &[u8]
        ensures { result.now ≡ self.now }
    {
        &self.bytes[self.place..self.end]
    }

    /// Takes the first so many of the bytes that the block holds.
    #[inline]
    pub(crate) fn skip(&mut self, count: usize)
        requires { count ≤ length self.old }
        ensures { self.new ≡ drop count self.old }
    {
        self.place += count;
    }

    /// The first byte that the block holds.
    #[inline(always)]
    fn give(&mut self) -> u8
        requires { 0 < length self.old }
        ensures { self.old ≡ result ∷ self.new }
    {
        let byte = self.bytes[self.place];
        self.place += 1;
        byte
    }

    /// Reads the next block. It holds nothing only at the end of the reader.
    #[cold]
    #[inline(never)]
    fn fill<R: Read>(&mut self, reader: &mut R, refusals: &mut Refusals) -> Result<(), Failed>
        requires { self.old ≡ [] }
        ensures takes { OnOk result (Consumes (R.remaining reader.old) (R.remaining reader.new) self.new) }
        ensures end { OnOk result (self.new ≡ [] → IsAtEnd (R.remaining reader.new)) }
        ensures keeps { OnErr result (Keeps (R.remaining reader.old) (R.remaining reader.new)) }
        ensures empty { OnErr result (self.new ≡ []) }
        ensures failed { OnErr result (Rose refusals.old refusals.new) }
        ensures calm { OnOk result (refusals.new ≡ refusals.old) }
        ensures later { refusals.old ≤ refusals.new }
    {
        self.place = 0;
        self.end = 0;
        match read_block(reader, refusals, &mut self.bytes) {
            Ok(count) => {
                self.end = count;
                Ok(())
            }
            Err(_) => Err(Failed),
        }
    }
}

/// Reads into the block, and again where a signal interrupted it, and answers how many bytes were read. The turns are counted
/// so that the loop is proved to end.
#[cold]
fn read_block<R: Read>(
    reader: &mut R,
    refusals: &mut Refusals,
    block: &mut [u8],
) -> Result<usize, ErrorKind>
    requires { 0 < length block.old }
    ensures size { length block.new ≡ length block.old }
    ensures within { IfOk result (λ count. count ≤ length block.new) }
    ensures takes { IfOk result (λ count. Consumes (R.remaining reader.old) (R.remaining reader.new) (held block.new 0 count)) }
    ensures end { IfOk result (λ count. count ≡ 0 → IsAtEnd (R.remaining reader.new)) }
    ensures keeps { OnErr result (Keeps (R.remaining reader.old) (R.remaining reader.new)) }
    ensures retried { IfErr result (λ kind. kind ≢ ErrorKind.Interrupted) }
    ensures failed { OnErr result (Rose refusals.old refusals.new) }
    ensures calm { OnOk result (refusals.new ≡ refusals.old) }
    ensures later { refusals.old ≤ refusals.new }
{
    let mut turns = 0;
    'tries: while turns < u64::MAX {
        match refusals.read(reader, block)? {
            Some(count) => return Ok(count),
            None => turns += 1,
        }
    }
    Err(refusals.give_up(turns))
}
