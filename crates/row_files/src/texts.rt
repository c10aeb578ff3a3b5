//! Texts of rows: lines add to them a line, a piece with escapes, a repeated piece, or a file.

use crate::{Fault, kind_and_rest, number};
use aut_base::{Memory, Text};
use std::alloc::Global;
use std::fs;

/// Adds to a text what a line has for it. The form is what follows the mark of the text in the line's kind.
pub fn add(rt: &HostRuntime, text: &mut Text, form: &str, rest: &str) -> Result<(), Fault> {
    match form {
        "" => Ok(add_line(text, rest)?),
        "\\" => add_piece(text, rest, 0),
        "*" => add_repeated(text, rest),
        "file" => add_file(rt, text, rest),
        _ => Err(Fault::UnknownKind),
    }
}

/// Adds a line as it is, and a line feed.
fn add_line(text: &mut Text, line: &str) -> Result<(), Memory> {
    text.extend(line.as_bytes())?;
    text.push(b'\n')
}

/// Adds the bytes of a file.
fn add_file(rt: &HostRuntime, text: &mut Text, path: &str) -> Result<(), Fault> {
    match fs::read(rt, path) {
        Ok(bytes) => Ok(text.extend(&bytes)?),
        Err(error) => Err(Fault::Io(error)),
    }
}

/// Adds a piece with escapes this many times: the number is before the piece.
fn add_repeated(text: &mut Text, rest: &str) -> Result<(), Fault> {
    let (count, piece) = kind_and_rest(rest);
    for number in 0..number(count)? {
        add_piece(text, piece, number)?;
    }
    Ok(())
}

/// Adds a piece, with its escapes replaced. The number is that of the repetition, from 0.
pub fn add_escaped(_alloc: Global, text: &mut Text, piece: &str, number: u32) -> Result<(), Fault> {
    add_piece(text, piece, number)
}

/// What a byte of a piece means.
#[derive(Clone, Copy)]
enum Meaning {
    /// This byte is added.
    Byte(u8),
    /// The number of the repetition is added, plus this.
    Number(u32),
    /// Nothing is added.
    Nothing,
    /// `\` begins an escape.
    Escape,
    /// `\x` is read, and two digits follow.
    High,
    /// A digit of this value is read, and another follows.
    Low(u8),
    /// There is no such escape.
    Unknown,
}

/// Adds a piece, with its escapes replaced.
fn add_piece(text: &mut Text, piece: &str, number: u32) -> Result<(), Fault> {
    let mut last = Meaning::Nothing;
    for byte in piece.as_bytes() {
        last = meaning_after(last, *byte);
        add_meant(text, last, number)?;
    }
    match last {
        Meaning::Byte(_) | Meaning::Number(_) | Meaning::Nothing => Ok(()),
        _ => Err(Fault::UnknownEscape),
    }
}

/// Adds what a byte means.
fn add_meant(text: &mut Text, meaning: Meaning, number: u32) -> Result<(), Memory> {
    match meaning {
        Meaning::Byte(byte) => text.push(byte),
        Meaning::Number(more) => text.push_decimal(u64::from(number.saturating_add(more))),
        _ => Ok(()),
    }
}

/// What a byte means after the byte before it.
fn meaning_after(last: Meaning, byte: u8) -> Meaning {
    match last {
        Meaning::Escape => escape(byte),
        Meaning::High => match digit(byte) {
            Some(high) => Meaning::Low(high),
            None => Meaning::Unknown,
        },
        Meaning::Low(high) => match digit(byte) {
            Some(low) => Meaning::Byte(high << 4 | low),
            None => Meaning::Unknown,
        },
        Meaning::Unknown => Meaning::Unknown,
        _ if byte == b'\\' => Meaning::Escape,
        _ => Meaning::Byte(byte),
    }
}

/// What a byte after `\` means.
fn escape(byte: u8) -> Meaning {
    match byte {
        b'\\' => Meaning::Byte(b'\\'),
        b'n' => Meaning::Byte(b'\n'),
        b't' => Meaning::Byte(b'\t'),
        b's' => Meaning::Byte(b' '),
        b'&' => Meaning::Nothing,
        b'#' => Meaning::Number(0),
        b'+' => Meaning::Number(1),
        b'x' => Meaning::High,
        _ => Meaning::Unknown,
    }
}

/// The value of a hexadecimal digit, in lower case.
fn digit(byte: u8) -> Option<u8> {
    match byte {
        b'0'..=b'9' => Some(byte - b'0'),
        b'a'..=b'f' => Some(byte - b'a' + 10),
        _ => None,
    }
}
