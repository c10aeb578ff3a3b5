//! A list of numbers that holds up to three of them without an allocation.

ghost use Rattle.std.specs.Prelude.{◌≡◌, ◌==◌, [], ◌∷◌, ◌++◌, length, IfOk, OnOk, OnErr};
ghost use Rattle.aut_base.specs.FewNumbers.{held_numbers};

use crate::Memory;
use std::alloc::{AllocError, Global};
use std::marker::Model;

// Why so: 'What is short lies in the value itself' in docs/DECISIONS.md.
/// A list of numbers. Up to three are stored in the value itself, without an allocation: the lists of a text's starts, of an edge's
/// target states and of its sets are seldom longer. Contracts see the list.
#[derive(Debug)]
pub struct FewNumbers {
    alloc: Global,
    held: Held,
}

// Written down, so that it is proved here alone.
impl Drop for FewNumbers {
    fn drop(self) {
        let FewNumbers { alloc: _, held: _ } = self;
    }
}

/// How the numbers are stored.
#[derive(Debug, Drop)]
pub(crate) enum Held {
    None,
    One([u32; 1]),
    Two([u32; 2]),
    Three([u32; 3]),
    More(Box<Vec<u32>>),
}

impl Model for FewNumbers {
    ghost use Rattle.std.specs.Prelude.{ℕ, List};
    ghost use Rattle.aut_base.specs.FewNumbers.{held_numbers};

    ghost Value = { List ℕ };

    ghost view = { λ n. held_numbers n.held };
}

impl FewNumbers {
    /// An empty list.
    #[inline]
    pub fn new(alloc: Global) -> FewNumbers
        ensures { result ≡ [] }
    {
        FewNumbers {
            alloc,
            held: Held::None,
        }
    }

    /// The numbers as a slice.
    #[inline]
    pub fn as_slice(&self) -> &[u32]
        ensures { result.now ≡ self.now }
    {
        match &self.held {
            Held::None => &[],
            Held::One(numbers) => &numbers[..],
            Held::Two(numbers) => &numbers[..],
            Held::Three(numbers) => &numbers[..],
            Held::More(numbers) => numbers.as_slice(),
        }
    }

    /// The length of the list.
    #[inline]
    pub fn len(&self) -> usize
        ensures { result ≡ length self.now }
    {
        self.as_slice().len()
    }

    /// Whether the list is empty.
    #[inline]
    pub fn is_empty(&self) -> bool
        ensures { result ≡ (length self.now == 0) }
    {
        self.as_slice().is_empty()
    }

    /// Adds a number at the end. Refused for want of memory, it leaves the list as it was.
    #[inline]
    pub fn push(&mut self, number: u32) -> Result<(), Memory>
        ensures ok { OnOk result (self.new ≡ self.old ++ number ∷ []) }
        ensures err { OnErr result (self.new ≡ self.old) }
    {
        let next = match &mut self.held {
            Held::None => Held::One([number]),
            Held::One(before) => Held::Two([before[0], number]),
            Held::Two(before) => Held::Three([before[0], before[1], number]),
            Held::Three(before) => four(self.alloc, before, number)?,
            Held::More(numbers) => {
                return push_more(numbers, number);
            }
        };
        self.held = next;
        Ok(())
    }
}

/// The allocated list of three numbers and a fourth.
#[cold]
fn four(alloc: Global, three: &[u32], number: u32) -> Result<Held, Memory>
    ensures { IfOk result (λ held. held_numbers held ≡ three.now ++ number ∷ []) }
{
    let mut numbers = Vec::from_slice(alloc, three)?;
    numbers.push(number)?;
    Ok(Held::More(Box::new(alloc, numbers)?))
}

/// Adds a number at the end of an allocated list.
fn push_more(numbers: &mut Vec<u32>, number: u32) -> Result<(), Memory>
    ensures ok { OnOk result (numbers.new.items ≡ numbers.old.items ++ number ∷ []) }
    ensures err { OnErr result (numbers.new.items ≡ numbers.old.items) }
{
    match numbers.push(number) {
        Ok(()) => Ok(()),
        Err(_) => Err(Memory),
    }
}

impl Clone for FewNumbers {
    ghost use Rattle.std.specs.Prelude.{◌≡◌};

    ghost is_clone = { λ numbers copy. copy ≡ numbers };

    #[inline]
    fn clone(&self) -> Result<Self, AllocError> {
        let held = match &self.held {
            Held::None => Held::None,
            Held::One(numbers) => Held::One([numbers[0]]),
            Held::Two(numbers) => Held::Two([numbers[0], numbers[1]]),
            Held::Three(numbers) => Held::Three([numbers[0], numbers[1], numbers[2]]),
            Held::More(numbers) => Held::More(copied(self.alloc, numbers.as_slice())?),
        };
        Ok(FewNumbers {
            alloc: self.alloc,
            held,
        })
    }
}

/// An allocated list of these numbers.
fn copied(alloc: Global, numbers: &[u32]) -> Result<Box<Vec<u32>>, AllocError>
    ensures { IfOk result (λ copy. copy.value.items ≡ numbers.now) }
{
    Ok(Box::new(alloc, Vec::from_slice(alloc, numbers)?)?)
}
