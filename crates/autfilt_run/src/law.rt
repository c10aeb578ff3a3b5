//! What holds of runs, as one sees it by eye.

ghost use Rattle.autfilt_run.specs.RunExamples.{RunExamples};

/// What happens over some texts, why it ends, what is written and what is answered.
pub fn run_examples()
    ensures { RunExamples }
{}
