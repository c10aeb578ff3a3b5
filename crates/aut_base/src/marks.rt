//! The acceptance sets that an edge belongs to.

ghost use Rattle.std.specs.Prelude.{◌≡◌, ◌==◌, ◌+◌, ◌<◌, ◌≤◌, ◌^◌, ◌↔◌, ℕ, [], ◌∷◌, ◌++◌, length, map, All, AllPairs, IfOk, IsTrue, MatchOption, OnOk, OnErr, slice_get};
ghost use Rattle.std.specs.List.{slice_index_or};
ghost use Rattle.aut_base.specs.HeldMarks.{bits_below, held_marks};
ghost use Rattle.aut_base.specs.Marks.{is_in};

use crate::{FewNumbers, Memory};
use std::alloc::{AllocError, Global};
use std::marker::Model;

// Why so: 'What is short lies in the value itself' in docs/DECISIONS.md.
/// Numbers of acceptance sets, increasing and without repeats. Where all are below 64, they are the bits of a word. Contracts see the
/// list of the numbers.
#[derive(Debug)]
pub struct Marks {
    alloc: Global,
    held: HeldMarks,
}

// Written down, so that it is proved here alone.
impl Drop for Marks {
    fn drop(self) {
        let Marks { alloc: _, held: _ } = self;
    }
}

/// How the marks are stored.
#[derive(Debug, Drop)]
pub(crate) enum HeldMarks {
    /// The bit of each mark is set.
    Word(u64),
    List(Box<FewNumbers>),
}

impl Model for Marks {
    ghost use Rattle.std.specs.Prelude.{ℕ, List, ◌<◌, AllPairs};
    ghost use Rattle.aut_base.specs.HeldMarks.{held_marks};

    ghost Value = { List ℕ };

    ghost view = { λ s. held_marks s.held };

    ghost invariant = { λ s. AllPairs (λ a b. a < b) (held_marks s.held) };
}

impl Clone for Marks {
    ghost use Rattle.std.specs.Prelude.{◌≡◌};

    ghost is_clone = { λ marks copy. copy ≡ marks };

    #[inline]
    fn clone(&self) -> Result<Self, AllocError> {
        let held = match &self.held {
            HeldMarks::Word(word) => HeldMarks::Word(*word),
            HeldMarks::List(numbers) => HeldMarks::List(copied(self.alloc, numbers)?),
        };
        Ok(Marks {
            alloc: self.alloc,
            held,
        })
    }
}

impl Marks {
    /// No marks.
    #[inline]
    pub fn new(alloc: Global) -> Self
        ensures { result ≡ [] }
    {
        Marks {
            alloc,
            held: HeldMarks::Word(0),
        }
    }

    /// The number of marks.
    #[inline]
    pub fn len(&self) -> usize
        ensures count { result ≡ length self.now }
        ensures increasing { AllPairs (λ a b. a < b) self.now }
    {
        match &self.held {
            HeldMarks::Word(word) => word.count_ones() as usize,
            HeldMarks::List(numbers) => numbers.len(),
        }
    }

    /// Whether there is no mark.
    #[inline]
    pub fn is_empty(&self) -> bool
        ensures { result ≡ (length self.now == 0) }
    {
        match &self.held {
            HeldMarks::Word(word) => *word == 0,
            HeldMarks::List(numbers) => numbers.is_empty(),
        }
    }

    /// The mark at this index, from 0.
    #[inline]
    pub fn at(&self, place: usize) -> &u32
        requires { place < length self.now }
        ensures value { Some result.now ≡ slice_get self.now place }
        ensures item { (d : ℕ) → slice_index_or self.now place d ≡ result.now }
    {
        match &self.held {
            HeldMarks::Word(word) => number(bit_number(*word, place)),
            HeldMarks::List(numbers) => &numbers.as_slice()[place],
        }
    }

    /// Whether this set is among the marks.
    #[inline]
    pub fn has(&self, set: u32) -> bool
        ensures { result ≡ is_in set self.now }
    {
        match &self.held {
            HeldMarks::Word(word) => set < 64 && (*word >> set) & 1 == 1,
            HeldMarks::List(numbers) => is_listed(numbers, set),
        }
    }

    /// Whether all are below this number.
    #[inline]
    pub fn are_below(&self, sets: u32) -> bool
        ensures below { IsTrue result ↔ All (λ mark. mark < sets) self.now }
        ensures increasing { AllPairs (λ a b. a < b) self.now }
    {
        match &self.held {
            HeldMarks::Word(word) => sets >= 64 || *word >> sets == 0,
            HeldMarks::List(numbers) => are_listed_below(numbers, sets),
        }
    }

    /// Adds a mark that is greater than all before it. Refused for want of memory, it leaves the marks as they were.
    #[inline]
    pub fn push(&mut self, item: u32) -> Result<(), Memory>
        requires { All (λ mark. mark < item) self.old }
        ensures ok { OnOk result (self.new ≡ self.old ++ item ∷ []) }
        ensures err { OnErr result (self.new ≡ self.old) }
    {
        let next = match &mut self.held {
            HeldMarks::Word(word) => with_bit(self.alloc, *word, item)?,
            HeldMarks::List(numbers) => {
                return push_listed(numbers, item);
            }
        };
        self.held = next;
        Ok(())
    }

    /// The marks, and after them the others raised by this number, which is greater than each of the first.
    #[inline]
    pub fn joint(&self, others: &Marks, by: u32) -> Result<Marks, Memory>
        requires marks { All (λ mark. mark < by) self.now }
        requires others { All (λ mark. mark + by < 2 ^ 32) others.now }
        ensures { IfOk result (λ all. all ≡ self.now ++ map (λ mark. mark + by) others.now) }
    {
        match joint_word(&self.held, &others.held, by) {
            Some(word) => Ok(Marks {
                alloc: self.alloc,
                held: HeldMarks::Word(word),
            }),
            None => joint_one_by_one(self, others, by),
        }
    }
}

/// The numbers below 64, for references to them.
static NUMBERS: [u32; 64] = [
    0, 1, 2, 3, 4, 5, 6, 7, 8, 9, 10, 11, 12, 13, 14, 15, 16, 17, 18, 19, 20, 21, 22, 23, 24, 25,
    26, 27, 28, 29, 30, 31, 32, 33, 34, 35, 36, 37, 38, 39, 40, 41, 42, 43, 44, 45, 46, 47, 48, 49,
    50, 51, 52, 53, 54, 55, 56, 57, 58, 59, 60, 61, 62, 63,
];

/// A reference to this number.
#[inline]
fn number(number: usize) -> &'static u32
    requires { number < 64 }
    ensures { result.now ≡ number }
{
    &NUMBERS[number]
}

/// The number of the bit that is set and has so many set bits before it.
fn bit_number(word: u64, place: usize) -> usize
    requires { place < length (bits_below 64 word) }
    ensures small { result < 64 }
    ensures value { Some result ≡ slice_get (bits_below 64 word) place }
{
    let mut left = place;
    let mut number = 0;
    'numbers: loop {
        if word >> number & 1 == 1 {
            if left == 0 {
                return number;
            }
            left -= 1;
        }
        number += 1;
    }
}

/// The marks of a word, and a greater one after them.
#[inline]
fn with_bit(alloc: Global, word: u64, item: u32) -> Result<HeldMarks, Memory>
    requires { All (λ mark. mark < item) (bits_below 64 word) }
    ensures { IfOk result (λ held. held_marks held ≡ bits_below 64 word ++ item ∷ []) }
{
    if item < 64 {
        return Ok(HeldMarks::Word(1 << item | word));
    }
    listed(alloc, word, item)
}

/// The marks of a word and a greater one after them, as a list.
#[cold]
fn listed(alloc: Global, word: u64, item: u32) -> Result<HeldMarks, Memory>
    ensures { IfOk result (λ held. held_marks held ≡ bits_below 64 word ++ item ∷ []) }
{
    let mut numbers = FewNumbers::new(alloc);
    'numbers: for number in 0..64 {
        if word >> number & 1 == 1 {
            numbers.push(number)?;
        }
    }
    numbers.push(item)?;
    Ok(HeldMarks::List(Box::new(alloc, numbers)?))
}

/// Adds a mark at the end of a list.
#[cold]
fn push_listed(numbers: &mut FewNumbers, item: u32) -> Result<(), Memory>
    ensures ok { OnOk result (numbers.new ≡ numbers.old ++ item ∷ []) }
    ensures err { OnErr result (numbers.new ≡ numbers.old) }
{
    numbers.push(item)
}

#[cold]
fn is_listed(numbers: &FewNumbers, set: u32) -> bool
    ensures { result ≡ is_in set numbers.now }
{
    numbers.as_slice().contains(&set)
}

#[cold]
fn are_listed_below(numbers: &FewNumbers, sets: u32) -> bool
    ensures { IsTrue result ↔ All (λ mark. mark < sets) numbers.now }
{
    numbers.as_slice().iter().all(|mark| *mark < sets)
}

#[cold]
fn copied(alloc: Global, numbers: &FewNumbers) -> Result<Box<FewNumbers>, AllocError>
    ensures { IfOk result (λ copy. copy.value ≡ numbers.now) }
{
    Ok(Box::new(alloc, numbers.clone()?)?)
}

/// The marks and the others raised by this number, as a word. `None` where it can't hold them, or they aren't held in words.
#[inline]
fn joint_word(marks: &HeldMarks, others: &HeldMarks, by: u32) -> Option<u64>
    requires { All (λ mark. mark < by) (held_marks marks.now) }
    ensures { MatchOption result (Unit {0}) (λ word. bits_below 64 word ≡ held_marks marks.now ++ map (λ mark. mark + by) (held_marks others.now)) }
{
    let HeldMarks::Word(first) = marks else {
        return None;
    };
    let HeldMarks::Word(second) = others else {
        return None;
    };
    if by >= 64 || *second > u64::MAX >> by {
        return None;
    }
    Some(*second << by | *first)
}

/// The marks, and after them the others raised by this number.
#[cold]
fn joint_one_by_one(marks: &Marks, others: &Marks, by: u32) -> Result<Marks, Memory>
    requires marks { All (λ mark. mark < by) marks.now }
    requires others { All (λ mark. mark + by < 2 ^ 32) others.now }
    ensures { IfOk result (λ all. all ≡ marks.now ++ map (λ mark. mark + by) others.now) }
{
    let mut all = marks.clone()?;
    'others: for place in 0..others.len() {
        all.push(*others.at(place) + by)?;
    }
    Ok(all)
}
