//! One row: the input of a run, and the outcome that is stated.

use crate::failing::Failing;
use crate::named::NamedTexts;
use crate::ran::{Ran, add_ran, bytes_left, status};
use crate::runs::{Each, Runs};
use crate::stated::Stated;
use crate::words::add_words;
use aut_base::{Text, Words};
use aut_io::{MemInputs, MemSink};
use row_files::{Answer, Fault, Row, add, kind_and_rest, number};
use std::alloc::Global;

/// The input of a run and the stated outcome, as far as the row's lines were read.
#[derive(Drop)]
pub(crate) struct CommandRow {
    name: String,
    words: Words,
    texts: NamedTexts,
    failing: Failing,
    runs: Runs,
    stated: Stated,
}

impl CommandRow {
    /// No line was read yet.
    pub(crate) fn new(alloc: Global) -> CommandRow {
        CommandRow {
            name: String::new(alloc),
            words: Words::new(alloc),
            texts: NamedTexts::new(alloc),
            failing: Failing::new(alloc),
            runs: Runs::single(),
            stated: Stated::new(alloc),
        }
    }

    /// Whether no line was read. The first line of a row is its name.
    fn is_empty(&self) -> bool {
        self.name.as_str().is_empty()
    }

    /// Whether a note is stated, and the row doesn't say which writes of notes fail.
    fn notes_freely(&self) -> bool {
        self.stated.has_note() && self.failing.notes_freely()
    }

    /// Takes the name of the row. Its first text is that of standard input.
    fn begin(&mut self, alloc: Global, name: &str) -> Result<(), Fault> {
        if name.is_empty() {
            return Err(Fault::Missing);
        }
        self.name.push_str(name)?;
        self.texts.begin(alloc, "-")
    }

    /// Takes a line that adds to no text.
    fn add_other(&mut self, alloc: Global, kind: &str, rest: &str) -> Result<(), Fault> {
        match kind {
            "=" => self.begin(alloc, rest)?,
            "?" => self.add_call(alloc, rest)?,
            "@" => self.texts.begin(alloc, rest)?,
            "left" => self.stated.left = Some(number(rest)?),
            "each-call" => self.runs = Runs::read(Each::Call, rest)?,
            "each-front" => self.runs = Runs::read(Each::Front, rest)?,
            _ => self.failing.set(alloc, kind, rest)?,
        }
        Ok(())
    }

    /// Takes the stated status, and the words.
    fn add_call(&mut self, alloc: Global, rest: &str) -> Result<(), Fault> {
        if self.stated.status.is_some() {
            return Err(Fault::Misplaced);
        }
        let (status, words) = kind_and_rest(rest);
        self.stated.status = Some(wanted(status)?);
        add_words(alloc, &mut self.words, words)
    }

    /// Adds the runs whose outcome is another than the stated one. Where a note is stated and the row doesn't say which writes of
    /// notes fail, each run is made again with a failing first write of a note, which may change nothing else.
    fn add_different(&self, alloc: Global, shown: &mut Answer) -> Result<(), Fault> {
        for run in self.runs.first..=self.runs.last {
            let is_met = self.is_met(alloc, shown, run, false)?;
            if is_met && self.notes_freely() {
                self.is_met(alloc, shown, run, true)?;
            }
        }
        Ok(())
    }

    /// Whether the run of this number has the stated outcome, which is else added to what is printed. With `is_mute` the first write
    /// of a note fails.
    fn is_met(
        &self,
        alloc: Global,
        shown: &mut Answer,
        run: u32,
        is_mute: bool,
    ) -> Result<bool, Fault> {
        let mut out = self.failing.output(alloc)?;
        let mut notes = self.failing.notes(alloc, is_mute)?;
        let (status, left) = self.ran(alloc, run, &mut out, &mut notes)?;
        let ran = Ran {
            status,
            out: out.bytes(),
            notes: notes.bytes(),
            left,
        };
        let is_met = self.stated.is_met(ran, is_mute);
        if !is_met {
            self.show(shown, run, is_mute, ran);
        }
        Ok(is_met)
    }

    /// The status of the run of this number over these sinks, and how many bytes it leaves.
    fn ran(
        &self,
        alloc: Global,
        run: u32,
        out: &mut MemSink,
        notes: &mut MemSink,
    ) -> Result<(u8, u32), Fault> {
        let mut inputs = self.inputs(alloc, run)?;
        let status = status(alloc, &self.words, &mut inputs, out, notes);
        Ok((status, bytes_left(&mut inputs)))
    }

    /// The inputs of the run of this number.
    fn inputs(&self, alloc: Global, run: u32) -> Result<MemInputs, Fault> {
        let failing = self.failing.calls(alloc, self.runs.failing_call(run))?;
        self.texts
            .inputs(alloc, self.runs.longest_front(run), failing)
    }

    /// Adds the outcome of a run, in the notation of rows.
    fn show(&self, shown: &mut Answer, run: u32, is_mute: bool, ran: Ran) {
        shown.add(b"= ");
        shown.add(self.name.as_bytes());
        shown.add_count(b"\n# run", run);
        if is_mute {
            shown.add(b", with a failing write of the note");
        }
        shown.add(b"\n");
        add_ran(shown, ran);
    }
}

impl Row for CommandRow {
    fn add(&mut self, rt: &HostRuntime, line: &str) -> Result<bool, Fault> {
        let (kind, rest) = kind_and_rest(line);
        if self.is_empty() != (kind == "=") {
            return Err(Fault::Misplaced);
        }
        if let Some(form) = kind.strip_prefix('<') {
            self.texts.add(rt, form, rest)?;
        } else if let Some(form) = kind.strip_prefix('>') {
            add(rt, &mut self.stated.output, form, rest)?;
        } else if let Some(form) = kind.strip_prefix('!') {
            add(rt, &mut self.stated.note, form, rest)?;
        } else {
            self.add_other(rt.alloc(), kind, rest)?;
        }
        Ok(false)
    }

    fn is_whole(&self) -> Result<bool, Fault> {
        Ok(!self.is_empty())
    }

    fn different(&self, rt: &HostRuntime) -> Result<Option<String>, Fault> {
        if self.stated.status.is_none() {
            return Err(Fault::Missing);
        }
        let mut shown = Answer::new(rt.alloc());
        self.add_different(rt.alloc(), &mut shown)?;
        message(rt.alloc(), shown)
    }

    fn clear(&mut self, alloc: Global) {
        *self = CommandRow::new(alloc);
    }
}

/// What is printed, if there is something.
fn message(alloc: Global, shown: Answer) -> Result<Option<String>, Fault> {
    let text = shown.end()?;
    if text.is_empty() {
        return Ok(None);
    }
    Ok(Some(String::from_utf8_lossy(alloc, text.as_bytes())?))
}

/// An exit status.
fn wanted(word: &str) -> Result<u8, Fault> {
    match word.parse::<u8>() {
        Ok(status) => Ok(status),
        Err(_) => Err(Fault::NoNumber),
    }
}
