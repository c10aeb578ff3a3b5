//! Rows that make a call, given by its name, with a text, and compare its answer.

use crate::row::{Row, run};
use crate::{Answer, Count, Fault, Stop, add, add_escaped, kind_and_rest};
use aut_base::Text;
use std::alloc::Global;

/// The calls that a program of rows can make.
pub trait Answers {
    /// Adds what the call of this name answers to these lines. Fails where there is no such call.
    fn add_answer(
        &self,
        rt: &HostRuntime,
        answer: &mut Answer,
        call: &str,
        lines: &str,
    ) -> Result<(), Fault>;
}

/// Runs the rows of these files, whose lines are `? CALL`, the input's lines with the mark `<`, `>\ PIECE`, which adds to the
/// expected answer, and `> ANSWER`, which ends a row. A call is that of the following rows too, until another is named.
pub fn ask<A: Answers + Drop>(
    rt: &HostRuntime,
    files: &[&'static str],
    answers: A,
    count: &mut Count,
) -> Result<(), Stop> {
    let mut row = Asked {
        answers,
        call: String::new(rt.alloc()),
        lines: Answer::new(rt.alloc()),
        text: Text::new(rt.alloc()),
        wanted: Text::new(rt.alloc()),
    };
    run(rt, files, &mut row, count)
}

/// A row, as far as its lines were read.
#[derive(Drop)]
struct Asked<A> {
    answers: A,
    call: String,
    /// The lines of the input as they are written.
    lines: Answer,
    text: Text,
    wanted: Text,
}

impl<A: Answers> Row for Asked<A> {
    fn add(&mut self, rt: &HostRuntime, line: &str) -> Result<bool, Fault> {
        let (kind, rest) = kind_and_rest(line);
        self.add_kind(rt, line, kind, rest)?;
        Ok(kind == ">")
    }

    fn is_whole(&self) -> Result<bool, Fault> {
        if self.lines.is_empty() {
            return Ok(false);
        }
        Err(Fault::Missing)
    }

    fn different(&self, rt: &HostRuntime) -> Result<Option<String>, Fault> {
        let lines = std::str::from_utf8(self.text.as_bytes()).unwrap_or("");
        let mut answer = Answer::new(rt.alloc());
        self.answers
            .add_answer(rt, &mut answer, self.call.as_str(), lines)?;
        self.message(rt.alloc(), &answer)
    }

    fn clear(&mut self, alloc: Global) {
        self.lines = Answer::new(alloc);
        self.text = Text::new(alloc);
        self.wanted = Text::new(alloc);
    }
}

impl<A> Asked<A> {
    /// Takes a line of this kind.
    fn add_kind(
        &mut self,
        rt: &HostRuntime,
        line: &str,
        kind: &str,
        rest: &str,
    ) -> Result<(), Fault> {
        match kind {
            "?" => self.set_call(rest),
            ">" => Ok(self.wanted.extend(rest.as_bytes())?),
            ">\\" => add_escaped(rt.alloc(), &mut self.wanted, rest, 0),
            _ => self.add_input(rt, line, kind, rest),
        }
    }

    /// Adds a line of the input.
    fn add_input(
        &mut self,
        rt: &HostRuntime,
        line: &str,
        kind: &str,
        rest: &str,
    ) -> Result<(), Fault> {
        self.lines.add(line.as_bytes());
        self.lines.add(b"\n");
        match kind.strip_prefix('<') {
            Some(form) => add(rt, &mut self.text, form, rest),
            None => Err(Fault::UnknownKind),
        }
    }

    /// The row with this answer, where another is expected.
    fn message(&self, alloc: Global, answer: &Answer) -> Result<Option<String>, Fault> {
        if answer.is(self.wanted.as_bytes()) {
            return Ok(None);
        }
        let mut shown = Answer::new(alloc);
        self.show(&mut shown, answer);
        Ok(Some(shown.into_string(alloc)?))
    }

    /// Adds the row with this answer.
    fn show(&self, shown: &mut Answer, answer: &Answer) {
        shown.add(b"? ");
        shown.add(self.call.as_bytes());
        shown.add(b"\n");
        shown.add_all(&self.lines);
        shown.add(b"> ");
        shown.add_all(answer);
    }

    /// Takes the name of the call, for this row and those after it.
    fn set_call(&mut self, name: &str) -> Result<(), Fault> {
        if !self.lines.is_empty() {
            return Err(Fault::Misplaced);
        }
        self.call.clear();
        self.call.push_str(name)?;
        Ok(())
    }
}
