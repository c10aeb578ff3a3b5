//! Names of headers, identifiers and aliases, as lists of bytes.

ghost use Rattle.std.specs.Prelude.{◌≡◌, ◌==◌, ◌↔◌, ◌<◌, ◌≤◌, ◌+◌, ◌-◌, [], ◌∷◌, ◌++◌, length, IfOk, IsTrue, OnOk, OnErr};
ghost use Rattle.aut_base.specs.Text.{same_text};

use aut_base::Memory;
use std::alloc::Global;
use std::marker::Model;

/// The greatest number of bytes that are stored in the value itself.
const MOST_SHORT: usize = 16;

// Why so: 'What is short lies in the value itself' in docs/DECISIONS.md.
/// The name of a header, an identifier or an alias. Contracts see the list of its bytes.
#[derive(Debug)]
pub struct Name {
    alloc: Global,
    held: Held,
}

// Written down, so that it is proved here alone.
impl Drop for Name {
    fn drop(self) {
        let Name { alloc: _, held: _ } = self;
    }
}

/// Where the bytes are stored.
#[derive(Debug, Drop)]
pub(crate) enum Held {
    Short(Short),
    Long(Vec<u8>),
}

impl Model for Name {
    ghost use Rattle.std.specs.Prelude.{ℕ, List};
    ghost use Rattle.hoa_lexer.specs.inner.Names.{held_bytes};

    ghost Value = { List ℕ };

    ghost view = { λ n. held_bytes n.held };
}

/// A few bytes, stored in the value itself.
#[derive(Debug, Drop)]
pub(crate) struct Short {
    length: usize,
    bytes: [u8; 16],
}

impl Model for Short {
    ghost use Rattle.std.specs.Prelude.{ℕ, List, ◌≤◌, take};

    ghost Value = { List ℕ };

    ghost view = { λ s. take s.length s.bytes };

    ghost invariant = { λ s. s.length ≤ 16 };
}

impl Short {
    /// No bytes yet.
    #[inline]
    fn new() -> Short
        ensures { result ≡ [] }
    {
        Short {
            length: 0,
            bytes: [0; 16],
        }
    }

    /// How many more bytes fit.
    #[inline]
    fn room(&self) -> usize
        ensures { result + length self.now ≡ 16 }
    {
        MOST_SHORT - self.length
    }

    /// Adds a byte at the end.
    #[inline]
    fn push(&mut self, byte: u8)
        requires { length self.old < 16 }
        ensures { self.new ≡ self.old ++ byte ∷ [] }
    {
        self.bytes[self.length] = byte;
        self.length += 1;
    }

    /// Adds bytes at the end.
    #[inline]
    fn extend(&mut self, bytes: &[u8])
        requires { length self.old + length bytes.now ≤ 16 }
        ensures { self.new ≡ self.old ++ bytes.now }
    {
        'bytes: for byte in bytes {
            self.push(*byte);
        }
    }

    /// The bytes.
    #[inline]
    fn as_slice(&self) -> &[u8]
        ensures { result.now ≡ self.now }
    {
        &self.bytes[..self.length]
    }
}

impl Name {
    /// No bytes yet.
    #[inline]
    pub(crate) fn new(alloc: Global) -> Name
        ensures { result ≡ [] }
    {
        Name {
            alloc,
            held: Held::Short(Short::new()),
        }
    }

    /// The name of these bytes.
    #[inline]
    pub fn from_bytes(alloc: Global, bytes: &[u8]) -> Result<Name, Memory>
        ensures { IfOk result (λ name. name ≡ bytes.now) }
    {
        let mut name = Name::new(alloc);
        name.extend(bytes)?;
        Ok(name)
    }

    /// Adds a byte at the end. Where memory is wanting, the name stays as it was.
    #[inline]
    pub(crate) fn push(&mut self, byte: u8) -> Result<(), Memory>
        ensures ok { OnOk result (self.new ≡ self.old ++ byte ∷ []) }
        ensures err { OnErr result (self.new ≡ self.old) }
    {
        self.extend(&[byte])
    }

    /// Adds bytes at the end. Where memory is wanting, the name stays as it was.
    #[inline]
    pub(crate) fn extend(&mut self, bytes: &[u8]) -> Result<(), Memory>
        ensures ok { OnOk result (self.new ≡ self.old ++ bytes.now) }
        ensures err { OnErr result (self.new ≡ self.old) }
    {
        let grown = match &mut self.held {
            Held::Short(short) => {
                if bytes.len() <= short.room() {
                    short.extend(bytes);
                    return Ok(());
                }
                joined(self.alloc, short.as_slice(), bytes)?
            }
            Held::Long(list) => {
                return push_all(list, bytes);
            }
        };
        self.held = Held::Long(grown);
        Ok(())
    }

    /// Whether there is no byte.
    pub fn is_empty(&self) -> bool
        ensures { result ≡ (length self.now == 0) }
    {
        self.as_bytes().is_empty()
    }

    /// The bytes of the name.
    #[inline]
    pub fn as_bytes(&self) -> &[u8]
        ensures { result.now ≡ self.now }
    {
        match &self.held {
            Held::Short(short) => short.as_slice(),
            Held::Long(list) => list.as_slice(),
        }
    }

    /// Whether the name is exactly these bytes.
    #[inline]
    pub fn is(&self, bytes: &[u8]) -> bool
        ensures same { result ≡ same_text self.now bytes.now }
        ensures equal { IsTrue result ↔ (self.now ≡ bytes.now) }
    {
        self.as_bytes() == bytes
    }
}

/// A list of the bytes of both.
#[cold]
fn joined(alloc: Global, first: &[u8], second: &[u8]) -> Result<Vec<u8>, Memory>
    ensures { IfOk result (λ list. list.items ≡ first.now ++ second.now) }
{
    let mut list = Vec::from_slice(alloc, first)?;
    list.extend_from_slice(second)?;
    Ok(list)
}

/// Adds bytes to a list.
fn push_all(list: &mut Vec<u8>, bytes: &[u8]) -> Result<(), Memory>
    ensures ok { OnOk result (list.new.items ≡ list.old.items ++ bytes.now) }
    ensures err { OnErr result (list.new.items ≡ list.old.items) }
{
    match list.extend_from_slice(bytes) {
        Ok(()) => Ok(()),
        Err(_) => Err(Memory),
    }
}
