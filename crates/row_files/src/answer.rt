//! Answers in words.

use aut_base::{Memory, Text};
use std::alloc::{AllocError, Global};

/// An answer that words are added to. Where memory is wanting for one, there is no answer at the end.
pub struct Answer {
    text: Text,
    lacks_memory: bool,
}

// Written down, so that it is proved here alone.
impl Drop for Answer {
    fn drop(self) {
        let Answer {
            text: _,
            lacks_memory: _,
        } = self;
    }
}

impl Answer {
    /// No word was added yet.
    pub fn new(alloc: Global) -> Answer {
        Answer {
            text: Text::new(alloc),
            lacks_memory: false,
        }
    }

    /// Whether nothing was added, or tried.
    pub fn is_empty(&self) -> bool {
        self.text.is_empty() && !self.lacks_memory
    }

    /// Whether these are its words, and none lacked memory.
    pub fn is(&self, words: &[u8]) -> bool {
        !self.lacks_memory && self.text.is(words)
    }

    /// Tells that memory was wanting for something that the answer is about.
    pub fn lack_memory(&mut self) {
        self.lacks_memory = true;
    }

    /// Adds bytes.
    pub fn add(&mut self, bytes: &[u8]) {
        if self.text.extend(bytes).is_err() {
            self.lacks_memory = true;
        }
    }

    /// Adds another answer.
    pub fn add_all(&mut self, other: &Answer) {
        self.add(other.text.as_bytes());
        if other.lacks_memory {
            self.lacks_memory = true;
        }
    }

    /// Adds words that were formatted.
    pub fn add_words(&mut self, words: Result<String, AllocError>) {
        match words {
            Ok(words) => self.add(words.as_bytes()),
            Err(_) => self.lacks_memory = true,
        }
    }

    /// Adds a number in base ten.
    pub fn add_number(&mut self, number: u64) {
        if self.text.push_decimal(number).is_err() {
            self.lacks_memory = true;
        }
    }

    /// Adds a word, a space and a number.
    pub fn add_count(&mut self, word: &[u8], number: u32) {
        self.add(word);
        self.add(b" ");
        self.add_number(u64::from(number));
    }

    /// Adds each number with a space before it.
    pub fn add_numbers(&mut self, numbers: &[u32]) {
        for number in numbers {
            self.add_count(b"", *number);
        }
    }

    /// Adds the numbers of sets, in braces, where there are any.
    pub fn add_marks(&mut self, marks: &[u32]) {
        if !marks.is_empty() {
            self.add(b" {");
            self.add_numbers(marks);
            self.add(b" }");
        }
    }

    /// Adds a text, in angle brackets.
    pub fn add_text(&mut self, text: &[u8]) {
        self.add(b" <");
        self.add(text);
        self.add(b">");
    }

    /// Adds each text, in angle brackets.
    pub fn add_texts(&mut self, texts: &[Text]) {
        for text in texts {
            self.add_text(text.as_bytes());
        }
    }

    /// The whole answer.
    pub fn end(self) -> Result<Text, Memory> {
        let Answer { text, lacks_memory } = self;
        if lacks_memory {
            return Err(Memory);
        }
        Ok(text)
    }

    /// The whole answer as a string; bytes that are no UTF-8 are replaced.
    pub fn into_string(self, alloc: Global) -> Result<String, Memory> {
        let text = self.end()?;
        Ok(String::from_utf8_lossy(alloc, text.as_bytes())?)
    }
}
