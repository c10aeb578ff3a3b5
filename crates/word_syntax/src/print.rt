//! Printing a lasso word.

ghost use Rattle.std.specs.Prelude.{◌≡◌, ◌==◌, ◌<◌, ◌++◌, All, length, map, flat_map, codes, IfOk, OnOk};
ghost use Rattle.aut_base.specs.LabelText.{joined};
ghost use Rattle.word_syntax.specs.Printing as printing;

use crate::bytes::{are_words, is_small};
use aut_base::{Lasso, Letter, Memory, Names, Text};
use std::alloc::Global;

// Why so: 'A text of 2^32 bytes or more writes no word' in docs/DECISIONS.md.
/// The word as a text, with a literal for each of these names in each letter.
pub fn print_word(alloc: Global, word: &Lasso, names: &Names) -> Result<Text, Memory>
    requires stem { All (printing.HoldsOnly names.now) word.now.stem }
    requires cycle { All (printing.HoldsOnly names.now) word.now.cycle }
    ensures { IfOk result (λ text. text ≡ printing.word_text names.now word.now.stem word.now.cycle) }
{
    let mut text = Text::new(alloc);
    push_stem(&mut text, word.stem.as_slice(), names)?;
    text.extend(b"cycle{")?;
    push_cycle(&mut text, word.cycle.as_slice(), names)?;
    text.extend(b"}")?;
    Ok(text)
}

// Letters, each followed by a semicolon.
fn push_stem(text: &mut Text, letters: &[Letter], names: &Names) -> Result<(), Memory>
    ensures { OnOk result (text.new ≡ text.old ++ flat_map (λ letter. printing.letter_text names.now letter ++ codes "; ") letters.now) }
{
    'letters: for letter in letters {
        push_letter(text, letter, names)?;
        text.extend(b"; ")?;
    }
    Ok(())
}

// Letters with semicolons between them.
fn push_cycle(text: &mut Text, letters: &[Letter], names: &Names) -> Result<(), Memory>
    requires { 0 < length letters.now }
    ensures { OnOk result (text.new ≡ text.old ++ joined (codes "; ") (map (printing.letter_text names.now) letters.now)) }
{
    push_letter(text, &letters[0], names)?;
    'letters: for place in 1..letters.len() {
        text.extend(b"; ")?;
        push_letter(text, &letters[place], names)?;
    }
    Ok(())
}

// A letter: the literals of all names.
fn push_letter(text: &mut Text, letter: &Letter, names: &Names) -> Result<(), Memory>
    ensures { OnOk result (text.new ≡ text.old ++ printing.letter_text names.now letter.now) }
{
    if names.is_empty() {
        return text.push(b'1');
    }
    push_literals(text, letter, names.as_slice())
}

// The literals of these names.
fn push_literals(text: &mut Text, letter: &Letter, names: &[Text]) -> Result<(), Memory>
    requires { 0 < length names.now }
    ensures { OnOk result (text.new ≡ text.old ++ joined (codes " & ") (map (printing.name_literal_text letter.now) names.now)) }
{
    push_literal(text, letter, &names[0])?;
    'names: for place in 1..names.len() {
        text.extend(b" & ")?;
        push_literal(text, letter, &names[place])?;
    }
    Ok(())
}

// A name, with `!` before it where it isn't in the letter.
fn push_literal(text: &mut Text, letter: &Letter, name: &Text) -> Result<(), Memory>
    ensures { OnOk result (text.new ≡ text.old ++ printing.name_literal_text letter.now name.now) }
{
    if !letter.has(name) {
        text.push(b'!')?;
        return push_name(text, name);
    }
    push_name(text, name)
}

// A name, in quotes where it needs them.
fn push_name(text: &mut Text, name: &Text) -> Result<(), Memory>
    ensures { OnOk result (text.new ≡ text.old ++ printing.name_text name.now) }
{
    if is_plain(name) {
        text.extend(name.as_bytes())
    } else {
        text.push(b'"')?;
        push_escaped(text, name.as_bytes())?;
        text.push(b'"')
    }
}

// Bytes, with `\` before each quote and each `\`.
fn push_escaped(text: &mut Text, bytes: &[u8]) -> Result<(), Memory>
    ensures { OnOk result (text.new ≡ text.old ++ flat_map printing.escaped_byte bytes.now) }
{
    'bytes: for byte in bytes {
        push_byte(text, *byte)?;
    }
    Ok(())
}

// A byte, with `\` before it where it is a quote or `\`.
fn push_byte(text: &mut Text, byte: u8) -> Result<(), Memory>
    ensures { OnOk result (text.new ≡ text.old ++ printing.escaped_byte byte) }
{
    if byte == b'"' || byte == b'\\' {
        text.push(b'\\')?;
        return text.push(byte);
    }
    text.push(byte)
}

// Whether a name needs no quotes.
fn is_plain(name: &Text) -> bool
    ensures { result ≡ printing.is_plain name.now }
{
    let bytes = name.as_bytes();
    if !begins_small(bytes) {
        return false;
    }
    if !are_words(bytes) {
        return false;
    }
    !is_keyword(name)
}

// Whether the first byte is a small letter or `_`.
fn begins_small(bytes: &[u8]) -> bool
    ensures { result ≡ printing.begins_small bytes.now }
{
    if bytes.is_empty() {
        return false;
    }
    is_small(bytes[0])
}

// Whether the name is a keyword of the notation.
fn is_keyword(name: &Text) -> bool
    ensures { result ≡ printing.is_keyword name.now }
{
    if name.is(b"true") {
        return true;
    }
    if name.is(b"false") {
        return true;
    }
    name.is(b"cycle")
}
