//! Parsing of lines, and the errors of reading and running rows.

use aut_base::{Memory, Numbers};
use std::alloc::{AllocError, AllocFailed, Global};
use std::io;

/// Why rows can't be read or run.
#[derive(Clone, Copy, Debug)]
pub enum Fault {
    /// A file could not be read, or standard output not written.
    Io(io::Error),
    Memory,
    /// The line's kind is unknown.
    UnknownKind,
    /// An unknown escape, or a `\` at the end.
    UnknownEscape,
    /// A number is expected, but there is none below 2^32, or one that is too great there.
    NoNumber,
    /// A line of this kind isn't allowed there: a row begins with another kind, or has such a line already.
    Misplaced,
    /// A row lacks a required line, or a line a required part.
    Missing,
    /// Two texts of a row have one name.
    SameName,
    /// The second number of a range is below the first.
    NoRun,
    /// A call failed that must not fail.
    Failed,
    /// Some row had another result than expected.
    Different,
}

/// Where and why reading or running the rows ended before the last. Lines are counted from 1.
#[derive(Clone, Copy, Debug)]
pub struct Stop {
    pub file: &'static str,
    pub line: u32,
    pub fault: Fault,
}

/// A fault in rows that are from no file, such as pseudo-random ones.
impl From<Fault> for Stop {
    fn from(fault: Fault) -> Stop {
        Stop {
            file: "none",
            line: 0,
            fault,
        }
    }
}

impl From<io::Error> for Fault {
    fn from(error: io::Error) -> Fault {
        Fault::Io(error)
    }
}

impl From<Memory> for Fault {
    fn from(_want: Memory) -> Fault {
        Fault::Memory
    }
}

impl From<AllocError> for Fault {
    fn from(_want: AllocError) -> Fault {
        Fault::Memory
    }
}

impl<T: Drop> From<AllocFailed<T>> for Fault {
    fn from(_want: AllocFailed<T>) -> Fault {
        Fault::Memory
    }
}

/// The kind of a line, which is what is before its first space, and the rest after that space.
pub fn kind_and_rest(line: &str) -> (&str, &str) {
    match line.split_once(' ') {
        Some(parts) => parts,
        None => (line, ""),
    }
}

/// A number in decimal digits.
pub fn number(word: &str) -> Result<u32, Fault> {
    match word.parse::<u32>() {
        Ok(number) => Ok(number),
        Err(_) => Err(Fault::NoNumber),
    }
}

/// Numbers separated by spaces.
pub fn numbers(alloc: Global, rest: &str) -> Result<Numbers, Fault> {
    let mut list = Numbers::new(alloc);
    add_numbers(&mut list, rest)?;
    Ok(list)
}

/// Adds numbers separated by spaces.
fn add_numbers(list: &mut Numbers, rest: &str) -> Result<(), Fault> {
    for word in rest.split(' ') {
        list.push(number(word)?)?;
    }
    Ok(())
}

/// Two numbers separated by a space, the first not greater than the second.
pub fn range(rest: &str) -> Result<(u32, u32), Fault> {
    let (first, last) = kind_and_rest(rest);
    let first = number(first)?;
    let last = number(last)?;
    if last < first {
        return Err(Fault::NoRun);
    }
    Ok((first, last))
}

/// A copy of a list of numbers.
pub fn copied(alloc: Global, list: &Numbers) -> Result<Numbers, Memory> {
    Ok(Numbers::from_vec(Vec::from_slice(alloc, list.as_slice())?))
}
