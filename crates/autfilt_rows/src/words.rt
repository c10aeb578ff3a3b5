//! Words of a command line, as rows write them.

use aut_base::{Text, Words};
use row_files::{Fault, add_escaped};
use std::alloc::Global;

/// Adds words that have a space between any two, each with escapes.
pub(crate) fn add_words(alloc: Global, words: &mut Words, line: &str) -> Result<(), Fault> {
    for word in line.split(' ') {
        if !word.is_empty() {
            let mut text = Text::new(alloc);
            add_escaped(alloc, &mut text, word, 0)?;
            words.push(text)?;
        }
    }
    Ok(())
}
