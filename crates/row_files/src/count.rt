//! The count of rows, and of those whose result was not the expected one.

use crate::{Fault, Stop};

/// How many rows were run, and how many of these had another result than expected (differed).
#[derive(Clone, Copy, Debug)]
pub struct Count {
    rows: u32,
    different: u32,
}

impl Count {
    /// The count before any row is run.
    pub fn new() -> Count {
        Count {
            rows: 0,
            different: 0,
        }
    }

    /// Counts a row, and whether it differed.
    pub fn add(&mut self, is_different: bool) {
        self.rows = self.rows.saturating_add(1);
        if is_different {
            self.different = self.different.saturating_add(1);
        }
    }

    /// Counts a row. Where it differed, prints the message.
    pub fn take(&mut self, rt: &HostRuntime, different: Option<String>) -> Result<(), Fault> {
        self.add(different.is_some());
        if let Some(text) = different {
            println!(rt; "{text}")?;
        }
        Ok(())
    }

    /// Ends a program of rows: writes its last line to standard output, and fails where some row differed.
    pub fn end(&self, rt: &HostRuntime) -> Result<(), Stop> {
        self.print(rt)?;
        if self.different > 0 {
            return Err(Stop::from(Fault::Different));
        }
        Ok(())
    }

    /// Writes the last line of a program of rows to standard output.
    fn print(&self, rt: &HostRuntime) -> Result<(), Stop> {
        let rows = self.rows;
        let different = self.different;
        match println!(rt; "rows={rows} different={different}") {
            Ok(()) => Ok(()),
            Err(error) => Err(Stop {
                file: "standard output",
                line: 0,
                fault: Fault::Io(error),
            }),
        }
    }
}
