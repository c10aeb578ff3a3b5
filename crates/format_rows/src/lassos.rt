//! Lasso words, in the notation of rows.

use aut_base::{Letter, Letters, Memory, Names, Text};
use row_files::Answer;
use std::alloc::Global;

/// The parts of a word, as far as they were read.
#[derive(Drop)]
pub(crate) struct Parts {
    pub(crate) names: Names,
    pub(crate) stem: Letters,
    pub(crate) cycle: Letters,
}

impl Parts {
    /// No part was read yet.
    pub(crate) fn new(alloc: Global) -> Parts {
        Parts {
            names: Names::new(alloc),
            stem: Letters::new(alloc),
            cycle: Letters::new(alloc),
        }
    }

    /// Reads a text such as `a,b/01,-/1`: names, the letters of the stem, and those of the cycle. A letter has a digit for
    /// each name that holds in it.
    pub(crate) fn read(&mut self, alloc: Global, text: &str) -> Result<(), Memory> {
        let (names, word) = halves(text);
        let (stem, cycle) = halves(word);
        self.add_part(alloc, 0, names)?;
        self.add_part(alloc, 1, stem)?;
        self.add_part(alloc, 2, cycle)
    }

    /// Adds the items of the part at this place.
    fn add_part(&mut self, alloc: Global, place: u32, part: &str) -> Result<(), Memory> {
        for item in part.split(',') {
            self.add_item(alloc, place, item.as_bytes())?;
        }
        Ok(())
    }

    /// Adds an item that isn't empty to the part at this place.
    fn add_item(&mut self, alloc: Global, place: u32, item: &[u8]) -> Result<(), Memory> {
        if item.is_empty() {
            return Ok(());
        }
        match place {
            0 => add_name(&mut self.names, Text::from_bytes(alloc, item)?),
            1 => self.stem.push(letter(alloc, self.names.as_slice(), item)?),
            _ => self.cycle.push(letter(alloc, self.names.as_slice(), item)?),
        }
    }
}

/// Writes a text such as `ab|c` as the one that is read, `/a,b,/c,`: each byte is a letter with this byte as its only name,
/// and the cycle comes after the bar.
pub(crate) fn add_simple(answer: &mut Answer, text: &[u8]) {
    answer.add(b"/");
    for byte in text {
        if *byte == b'|' {
            answer.add(b"/");
        } else {
            answer.add(&[*byte, b',']);
        }
    }
}

/// What is before a stroke, and what is after it.
fn halves(text: &str) -> (&str, &str) {
    text.split_once('/').unwrap_or(("", ""))
}

/// Adds a name that isn't there yet.
fn add_name(names: &mut Names, name: Text) -> Result<(), Memory> {
    if names.has(&name) {
        return Ok(());
    }
    names.push(name)
}

/// The letter with the names of these signs.
fn letter(alloc: Global, names: &[Text], signs: &[u8]) -> Result<Letter, Memory> {
    let mut letter = Letter::new(alloc);
    for sign in signs {
        add_sign(alloc, &mut letter, names, *sign)?;
    }
    Ok(letter)
}

/// Adds the name at a digit. Any other sign but `-` is a name itself.
fn add_sign(alloc: Global, letter: &mut Letter, names: &[Text], sign: u8) -> Result<(), Memory> {
    if sign == b'-' {
        return Ok(());
    }
    let own = [sign];
    let name: &[u8] = match names.get(usize::from(sign.saturating_sub(b'0'))) {
        Some(name) => name.as_bytes(),
        None => &own,
    };
    letter.add(Text::from_bytes(alloc, name)?)
}
