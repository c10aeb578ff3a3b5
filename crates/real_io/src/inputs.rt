//! Inputs over standard input and files.

ghost use Rattle.std.specs.Prelude.{◌≡◌, ◌≢◌, ◌≤◌, [], length, take, IfOk, IsUtf8};
ghost use Rattle.std.specs.Io.KnownBytes.{Consumes};
ghost use Rattle.aut_io.specs.Outside.{Rose};
ghost use Rattle.aut_io.specs.Seen.{Nexts, Opens, SkipsBytes};
ghost use Rattle.real_io.specs.Left.{KeepsStandard, at_hand, of_standard, seen_of_real, unread_text, unread_standard};
ghost use Rattle.real_io.specs.Opening.{IsAnswered, OpensFile, fail_of, standard_name};
ghost use Rattle.real_io.specs.Unread.{GivesFirst};

use crate::block::Block;
use crate::opener::Opener;
use crate::refusals::Refusals;
use aut_base::{Failed, Memory, OpenFail, Text};
use aut_io::Inputs;
use std::alloc::Global;
use std::io::{ErrorKind, Read};
use std::str::from_utf8;

/// Where the open text is read from.
#[derive(Drop)]
pub(crate) enum Origin<F> {
    /// Nothing is open.
    Nothing,
    /// Standard input.
    Standard,
    File(F),
}

/// Standard input under the name `-`, and files under all other names, all read through one buffer.
#[derive(Drop)]
pub struct RealInputs<R, O: Opener> {
    standard: R,
    opener: O,
    origin: Origin<O::File>,
    /// Bytes of the open file, or of standard input where no file is open: what was read of standard input and not given yet
    /// stays, since the system gives each byte once.
    block: Block,
    openings: u64,
    open_faults: u64,
    read_faults: Refusals,
}

impl<R: Read + Drop, O: Opener + Drop> RealInputs<R, O> {
    /// Allocates the buffer of one block.
    pub fn new(alloc: Global, standard: R, opener: O) -> Result<Self, Memory>
        ensures counts { IfOk result (λ inputs. (inputs.openings ≡ 0) × (inputs.open_faults ≡ 0) × (inputs.read_faults ≡ 0)) }
        ensures standard { IfOk result (λ inputs. (inputs.standard ≡ standard) × (inputs.block ≡ [])) }
        ensures opener { IfOk result (λ inputs. inputs.opener ≡ opener) }
        ensures closed { IfOk result (λ inputs. inputs.origin ≡ Origin.Nothing) }
    {
        Ok(RealInputs {
            standard,
            opener,
            origin: Origin::Nothing,
            block: Block::new(alloc)?,
            openings: 0,
            open_faults: 0,
            read_faults: Refusals::new(),
        })
    }
}

impl<R: Read + Drop, O: Opener + Drop> Inputs for RealInputs<R, O> {
    ghost seen = { seen_of_real };

    ghost at_hand = { at_hand };

    ghost may_open = { λ _. Unit {0} };

    fn open(&mut self, name: &Text) -> Result<(), OpenFail>
        ensures told { Opens (seen_of_real self.old) name.now result (seen_of_real self.new) }

        // What is open after the call: standard input, a file as the opener answered it, or nothing.
        ensures standard { name.now ≡ standard_name → (result ≡ Ok tt) × (self.new.origin ≡ Origin.Standard) }
        ensures bytes { ¬ IsUtf8 name.now → (result ≡ Err OpenFail.Failed) × (self.new.origin ≡ Origin.Nothing) }
        ensures file { name.now ≢ standard_name → IsUtf8 name.now → OpensFile (O.answers self.old.opener name.now) result self.new.origin }

        // The block keeps bytes of standard input until a file is opened, and no others: it is empty where one is opened.
        ensures block { self.new.block ≡ of_standard self.new.origin (of_standard self.old.origin self.old.block) }
        ensures kept { self.new.standard ≡ self.old.standard }

        // A file is asked for once, and standard input never.
        ensures once { name.now ≢ standard_name → IsUtf8 name.now → Rose (O.calls self.old.opener) (O.calls self.new.opener) }
        ensures none_by_name { name.now ≡ standard_name → self.new.opener ≡ self.old.opener }
        ensures none_by_bytes { ¬ IsUtf8 name.now → self.new.opener ≡ self.old.opener }
    {
        self.openings = self.openings.saturating_add(1);
        if let Origin::File(_) = &self.origin {
            self.block.clear();
        }
        self.origin = Origin::Nothing;
        if name.is(b"-") {
            self.origin = Origin::Standard;
            return Ok(());
        }
        match open_file(&mut self.opener, name) {
            Ok(file) => {
                self.block.clear();
                self.origin = Origin::File(file);
                Ok(())
            }
            Err(OpenFail::Failed) => {
                self.open_faults = self.open_faults.saturating_add(1);
                Err(OpenFail::Failed)
            }
            Err(OpenFail::Memory) => Err(OpenFail::Memory),
        }
    }

    #[inline]
    fn next(&mut self) -> Result<Option<u8>, Failed>
        ensures told { Nexts (seen_of_real self.old) result (seen_of_real self.new) }

        // The first of the bytes left in the block and, after them, in the reader of the open text.
        ensures gives { GivesFirst (unread_text R.remaining O.File.remaining self.old) (unread_text R.remaining O.File.remaining self.new) result }
        ensures closed { self.old.origin ≡ Origin.Nothing → result ≡ Ok None }

        // At its end a text is closed, so its reader isn't asked again.
        ensures ended { result ≡ Ok None → self.new.origin ≡ Origin.Nothing }

        // The same of standard input where it is open. A read takes nothing of it where it isn't.
        ensures standard { self.old.origin ≡ Origin.Standard → GivesFirst (unread_standard R.remaining self.old) (unread_standard R.remaining self.new) result }
        ensures kept { self.old.origin ≢ Origin.Standard → KeepsStandard self.old self.new }
        ensures opener { self.new.opener ≡ self.old.opener }
    {
        let read = match &mut self.origin {
            Origin::Nothing => return Ok(None),
            Origin::Standard => self.block.next(&mut self.standard, &mut self.read_faults),
            Origin::File(file) => self.block.next(file, &mut self.read_faults),
        };
        match read {
            Ok(Some(byte)) => Ok(Some(byte)),
            Ok(None) => {
                self.origin = Origin::Nothing;
                Ok(None)
            }
            Err(fault) => Err(fault),
        }
    }

    #[inline]
    fn ahead(&self) -> &[u8]
        ensures { result.now ≡ at_hand self.now }
    {
        match &self.origin {
            Origin::Nothing => b"",
            Origin::Standard | Origin::File(_) => self.block.ahead(),
        }
    }

    #[inline]
    fn skip(&mut self, count: usize)
        requires { count ≤ length (at_hand self.old) }
        ensures told { SkipsBytes (seen_of_real self.old) (take count (at_hand self.old)) (seen_of_real self.new) }

        // The bytes are the first that the open text has left, and the others stay.
        ensures gives { Consumes (unread_text R.remaining O.File.remaining self.old) (unread_text R.remaining O.File.remaining self.new) (take count (at_hand self.old)) }
        ensures open { self.new.origin ≡ self.old.origin }

        // The same of standard input where it is open. Nothing is taken of it where it isn't.
        ensures standard { self.old.origin ≡ Origin.Standard → Consumes (unread_standard R.remaining self.old) (unread_standard R.remaining self.new) (take count (at_hand self.old)) }
        ensures kept { self.old.origin ≢ Origin.Standard → KeepsStandard self.old self.new }
        ensures opener { self.new.opener ≡ self.old.opener }
    {
        match &self.origin {
            Origin::Nothing => {}
            Origin::Standard | Origin::File(_) => self.block.skip(count),
        }
    }
}

/// Opens the file under a name by one call of the opener, where the name is UTF-8.
fn open_file<O: Opener>(opener: &mut O, name: &Text) -> Result<O::File, OpenFail>
    ensures bytes { ¬ IsUtf8 name.now → (result ≡ Err OpenFail.Failed) × (opener.new ≡ opener.old) }
    ensures text { IsUtf8 name.now → IsAnswered (O.answers opener.old name.now) result }
    ensures once { IsUtf8 name.now → Rose (O.calls opener.old) (O.calls opener.new) }
{
    let Ok(path) = from_utf8(name.as_bytes()) else {
        return Err(OpenFail::Failed)
    };
    match opener.open(path) {
        Ok(file) => Ok(file),
        Err(error) => Err(fail_of(error.kind())),
    }
}

/// Why a text is not opened: want of memory, or any other error.
fn fail_of(kind: ErrorKind) -> OpenFail
    ensures { result ≡ fail_of kind }
{
    match kind {
        ErrorKind::OutOfMemory => OpenFail::Memory,
        _ => OpenFail::Failed,
    }
}
