//! Failures of calls, chosen in advance.

ghost use Rattle.std.specs.Prelude.{◌≡◌};
ghost use Rattle.aut_io.specs.InMemory.{is_failing};
ghost use Rattle.aut_io.specs.Outside.{incremented};

use aut_base::Numbers;

/// The numbers of the calls that fail, and how many calls were made so far.
#[derive(Debug, Drop)]
pub(crate) struct FailingCalls {
    listed: Numbers,
    made: u64,
}

impl FailingCalls {
    /// No call was made yet.
    pub(crate) fn new(listed: Numbers) -> Self
        ensures { result ≡ record { listed = listed; made = 0 } }
    {
        FailingCalls { listed, made: 0 }
    }

    /// Counts a call, and answers whether it fails.
    pub(crate) fn count(&mut self) -> bool
        ensures fails { result ≡ is_failing self.old.listed self.old.made }
        ensures counted { self.new ≡ record self.old { made = incremented self.old.made } }
    {
        let call = self.made;
        self.made = call.saturating_add(1);
        self.listed
            .as_slice()
            .iter()
            .any(|number| u64::from(*number) == call)
    }
}
