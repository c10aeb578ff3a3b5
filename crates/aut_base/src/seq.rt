//! The list type of the repository. Contracts see its items alone, and nothing of the memory that it takes.

ghost use Rattle.std.specs.Prelude.{◌≡◌, ◌==◌, ◌<◌, ◌↔◌, [], ◌∷◌, ◌++◌, length, slice_get, IsTrue, IfOk, OnOk, OnErr};
ghost use Rattle.std.specs.List.{slice_index_or};
ghost use Rattle.aut_base.specs.Text.{same_text};

use crate::Memory;
use std::alloc::Global;
use std::hash::{Hash, Hasher};
use std::marker::Model;

// Why so: 'One list type, `Seq<T>`' in docs/DECISIONS.md.
/// A list that grows at its end. Contracts see the list of its items.
#[derive(Clone, Debug)]
pub struct Seq<T> {
    items: Vec<T>,
}

// Written down, so that it is proved here alone.
impl<T: Drop> Drop for Seq<T> {
    fn drop(self) {
        let Seq { items: _ } = self;
    }
}

/// Bytes.
pub type Text = Seq<u8>;

/// Texts.
pub type Words = Seq<Text>;

/// Numbers of states, or any others.
pub type Numbers = Seq<u32>;

/// Arcs of a graph, each from a node to a node.
pub type Arcs = Seq<(u32, u32)>;

/// Truth values, such as one for each node of a graph.
pub type Flags = Seq<bool>;

/// Indices into a list, from 0.
pub type Places = Seq<usize>;

impl<T> Model for Seq<T> {
    ghost use Rattle.std.specs.Prelude.{List};

    ghost Value = { List T };

    ghost view = { λ s. s.items.items };
}

impl<T> Seq<T> {
    /// An empty list, which takes no memory yet.
    pub fn new(alloc: Global) -> Self
        ensures { result ≡ [] }
    {
        Seq {
            items: Vec::new(alloc),
        }
    }

    /// The number of items.
    pub fn len(&self) -> usize
        ensures { result ≡ length self.now }
    {
        self.items.len()
    }

    /// Whether there is no item.
    pub fn is_empty(&self) -> bool
        ensures { result ≡ (length self.now == 0) }
    {
        self.items.is_empty()
    }

    /// The item at this index, from 0.
    pub fn at(&self, place: usize) -> &T
        requires { place < length self.now }
        ensures value { Some result.now ≡ slice_get self.now place }
        ensures item { (d : T) → slice_index_or self.now place d ≡ result.now }
    {
        &self.items[place]
    }

    /// The items as a slice.
    pub fn as_slice(&self) -> &[T]
        ensures { result.now ≡ self.now }
    {
        &self.items
    }

    /// The list of these items, without a copy.
    pub fn from_vec(items: Vec<T>) -> Self
        ensures { result ≡ items.items }
    {
        Seq { items }
    }

    /// The items, without a copy.
    pub fn into_vec(self) -> Vec<T>
        ensures { result.items ≡ self }
    {
        let Seq { items } = self;
        items
    }
}

impl<T: Drop> Seq<T> {
    /// Adds an item at the end. Refused for want of memory, it drops the item and leaves the list as it was.
    pub fn push(&mut self, item: T) -> Result<(), Memory>
        ensures ok { OnOk result (self.new ≡ self.old ++ item ∷ []) }
        ensures err { OnErr result (self.new ≡ self.old) }
    {
        match self.items.push(item) {
            Ok(()) => Ok(()),
            Err(_) => Err(Memory),
        }
    }

    /// Drops the items. The memory that they took stays for those to come.
    pub fn clear(&mut self)
    where
        T: Drop,
        ensures { self.new ≡ [] }
    {
        self.items.clear();
    }
}

impl Seq<u8> {
    ghost use Rattle.std.specs.Prelude.{List, ℕ};
    ghost use Rattle.std.specs.Fmt.{decimal};

    /// The text of these bytes.
    pub fn from_bytes(alloc: Global, bytes: &[u8]) -> Result<Self, Memory>
        ensures { IfOk result (λ text. text ≡ bytes.now) }
    {
        match Vec::from_slice(alloc, bytes) {
            Ok(items) => Ok(Seq { items }),
            Err(_) => Err(Memory),
        }
    }

    /// A copy of the text.
    pub fn copy(&self, alloc: Global) -> Result<Text, Memory>
        ensures { IfOk result (λ copy. copy ≡ self.now) }
    {
        Text::from_bytes(alloc, self.as_bytes())
    }

    /// The bytes of the text.
    pub fn as_bytes(&self) -> &[u8]
        ensures { result.now ≡ self.now }
    {
        &self.items
    }

    /// Whether the text has just these bytes.
    pub fn is(&self, bytes: &[u8]) -> bool
        ensures same { result ≡ same_text self.now bytes.now }
        ensures equal { IsTrue result ↔ (self.now ≡ bytes.now) }
    {
        self.as_bytes() == bytes
    }

    /// Adds bytes at the end. Refused for want of memory, it leaves the text as it was.
    pub fn extend(&mut self, bytes: &[u8]) -> Result<(), Memory>
        ensures ok { OnOk result (self.new ≡ self.old ++ bytes.now) }
        ensures err { OnErr result (self.new ≡ self.old) }
    {
        match self.items.extend_from_slice(bytes) {
            Ok(()) => Ok(()),
            Err(_) => Err(Memory),
        }
    }

    /// Adds a number in decimal digits. Refused for want of memory, it leaves some of them at the end.
    #[tactic(auto, using(std::proofs::lemmas::Fmt::decimal_digit, std::proofs::lemmas::Fmt::decimal_step))]
    pub fn push_decimal(&mut self, number: u64) -> Result<(), Memory>
        ensures ok { OnOk result (self.new ≡ self.old ++ decimal number) }
        ensures err { OnErr result ((more : List ℕ) × (self.new ≡ self.old ++ more)) }
    {
        if number < 10 {
            return self.push(b'0' + number as u8);
        }
        self.push_decimal(number / 10)?;
        self.push(b'0' + (number % 10) as u8)
    }
}

impl Seq<Text> {
    /// A copy of the list and its texts.
    pub fn copy(&self, alloc: Global) -> Result<Words, Memory>
        ensures { IfOk result (λ copy. copy ≡ self.now) }
    {
        copy_all(alloc, self.as_slice())
    }
}

/// A copy of the texts.
fn copy_all(alloc: Global, texts: &[Text]) -> Result<Words, Memory>
    ensures { IfOk result (λ copy. copy ≡ texts.now) }
{
    let mut copies = Words::new(alloc);
    'texts: for text in texts {
        copies.push(text.copy(alloc)?)?;
    }
    Ok(copies)
}

impl<T: PartialEq> PartialEq for Seq<T> {
    ghost use Rattle.std.specs.Cmp.Lexicographic.{pointwise};
    ghost use Rattle.std.specs.Cmp.Rules.{comparing};
    ghost use Rattle.std.proofs.Common.{rules};

    ghost eq = { λ a b. pointwise T.eq a b };

    ghost laws = { Prim.search (comparing, rules) };

    fn eq(&self, other: &Self) -> bool {
        self.items.as_slice() == other.items.as_slice()
    }
}

impl<T: Eq> Eq for Seq<T> {
    ghost use Rattle.std.specs.Cmp.Rules.{comparing};
    ghost use Rattle.std.proofs.Common.{rules};

    ghost laws = { Prim.search (comparing, rules) };
}

impl<T: Hash> Hash for Seq<T> {
    ghost use Rattle.std.specs.Hash as fed;
    ghost use Rattle.std.specs.Hash.{items_Alike};

    ghost hash_input = { λ a. fed.slice T.hash_input a };

    ghost respects_eq = { (items_Alike (record { fed = T.respects_eq })).fed };

    fn hash<H: Hasher>(&self, state: &mut H) {
        self.items.as_slice().hash(state);
    }
}
