//! The texts of a row.

use aut_base::{Memory, Names, Numbers, Text, Words};
use aut_io::MemInputs;
use row_files::{Fault, add};
use std::alloc::Global;

/// Names, and as many texts.
#[derive(Drop)]
pub(crate) struct NamedTexts {
    names: Names,
    texts: Vec<Text>,
}

impl NamedTexts {
    pub(crate) fn new(alloc: Global) -> NamedTexts {
        NamedTexts {
            names: Names::new(alloc),
            texts: Vec::new(alloc),
        }
    }

    /// Begins the text of this name.
    pub(crate) fn begin(&mut self, alloc: Global, name: &str) -> Result<(), Fault> {
        self.add_name(Text::from_bytes(alloc, name.as_bytes())?)?;
        self.texts.push(Text::new(alloc))?;
        Ok(())
    }

    fn add_name(&mut self, name: Text) -> Result<(), Fault> {
        if self.names.has(&name) {
            return Err(Fault::SameName);
        }
        self.names.push(name)?;
        Ok(())
    }

    /// Adds to the last text.
    pub(crate) fn add(&mut self, rt: &HostRuntime, form: &str, rest: &str) -> Result<(), Fault> {
        match self.texts.last_mut() {
            Some(last) => add(rt, last, form, rest),
            None => Ok(()),
        }
    }

    /// The inputs over the prefixes of the texts of at most this length, on which the calls of these numbers fail.
    pub(crate) fn inputs(
        &self,
        alloc: Global,
        most: usize,
        failing: Numbers,
    ) -> Result<MemInputs, Fault> {
        let fronts = self.fronts(alloc, most)?;
        let names = self.names.clone()?;
        if fronts.len() != names.len() {
            return Err(Fault::Missing);
        }
        Ok(MemInputs::new(names, fronts, failing))
    }

    fn fronts(&self, alloc: Global, most: usize) -> Result<Words, Memory> {
        let mut fronts = Words::new(alloc);
        for text in self.texts.as_slice() {
            fronts.push(front(alloc, text.as_bytes(), most)?)?;
        }
        Ok(fronts)
    }
}

/// The first bytes of a text, at most so many.
fn front(alloc: Global, bytes: &[u8], most: usize) -> Result<Text, Memory> {
    Text::from_bytes(alloc, &bytes[..bytes.len().min(most)])
}
