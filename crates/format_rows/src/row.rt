//! One row: the input of a call, and the answer that is stated.

use crate::call::Call;
use crate::runs::add_all_different;
use crate::script::Script;
use aut_base::{Memory, Text};
use row_files::{Answer, Fault, Row, add, add_escaped, kind_and_rest};
use std::alloc::Global;

/// The input of a call and the stated answer, as far as the row's lines were read.
#[derive(Drop)]
pub(crate) struct TextRow {
    pub(crate) script: Script,
    /// The lines as they were read, without that of the answer.
    pub(crate) lines: Answer,
    pub(crate) text: Text,
    pub(crate) wanted: Text,
}

impl TextRow {
    /// No line was read yet.
    pub(crate) fn new(alloc: Global) -> TextRow {
        TextRow {
            script: Script::of(Call::None),
            lines: Answer::new(alloc),
            text: Text::new(alloc),
            wanted: Text::new(alloc),
        }
    }

    /// Keeps a line, to be printed where the answer is another.
    fn keep(&mut self, mark: &[u8], line: &str) {
        self.lines.add(mark);
        self.lines.add(line.as_bytes());
        self.lines.add(b"\n");
    }

    /// Takes a line of this kind.
    fn add_kind(
        &mut self,
        rt: &HostRuntime,
        line: &str,
        kind: &str,
        rest: &str,
    ) -> Result<(), Fault> {
        match kind {
            "?" => self.set_call(rest),
            ">" => add(rt, &mut self.wanted, "", rest),
            _ => match kind.strip_prefix('>') {
                Some(form) => {
                    self.keep(b"# ", line);
                    add(rt, &mut self.wanted, form, rest)
                }
                None => {
                    self.keep(b"", line);
                    self.add_input(rt, kind, rest)
                }
            },
        }
    }

    /// Takes the name of the call, for this row and those after it.
    fn set_call(&mut self, name: &str) -> Result<(), Fault> {
        if !self.lines.is_empty() {
            return Err(Fault::Misplaced);
        }
        self.script.call = Call::named(name)?;
        Ok(())
    }

    /// Takes a line of the input.
    fn add_input(&mut self, rt: &HostRuntime, kind: &str, rest: &str) -> Result<(), Fault> {
        match kind.strip_prefix('<') {
            Some("^") => self.add_marked(rt.alloc(), rest),
            Some(form) => add(rt, &mut self.text, form, rest),
            None => self.script.add(kind, rest),
        }
    }

    /// Adds a piece without its `^`. The stated answer is a fault at the offset of that.
    fn add_marked(&mut self, alloc: Global, piece: &str) -> Result<(), Fault> {
        let Some((front, back)) = piece.split_once('^') else {
            return Err(Fault::Missing);
        };
        add_escaped(alloc, &mut self.text, front, 0)?;
        self.add_fault()?;
        add_escaped(alloc, &mut self.text, back, 0)
    }

    /// Adds the fault at the end of the text to the stated answer.
    fn add_fault(&mut self) -> Result<(), Memory> {
        let fault: &[u8] = match self.script.call {
            Call::Next | Call::All => b"bad@",
            _ => b"syntax ",
        };
        self.wanted.extend(fault)?;
        self.wanted.push_decimal(self.text.len() as u64)?;
        self.wanted.push(b'\n')
    }
}

impl Row for TextRow {
    fn add(&mut self, rt: &HostRuntime, line: &str) -> Result<bool, Fault> {
        let (kind, rest) = kind_and_rest(line);
        self.add_kind(rt, line, kind, rest)?;
        Ok(kind == ">" || kind == "<^")
    }

    fn is_whole(&self) -> Result<bool, Fault> {
        if self.lines.is_empty() {
            return Ok(false);
        }
        Err(Fault::Missing)
    }

    fn different(&self, rt: &HostRuntime) -> Result<Option<String>, Fault> {
        let mut shown = Answer::new(rt.alloc());
        add_all_different(rt.alloc(), self, &mut shown);
        if shown.is_empty() {
            return Ok(None);
        }
        Ok(Some(shown.into_string(rt.alloc())?))
    }

    fn clear(&mut self, alloc: Global) {
        self.script = Script::of(self.script.call);
        self.lines = Answer::new(alloc);
        self.text = Text::new(alloc);
        self.wanted = Text::new(alloc);
    }
}
