//! Laws of monitors.

ghost use Rattle.monitor_form.specs.Monitors.{MonitorAccepts, PrunedAreLive};
ghost use Rattle.monitor_form.specs.Subsets.{MonitorExcludesLimits, MonitorExists, MonitorIsDetermined, SubsetFormIsDetermined};

/// The subset construction of an automaton whose states are live accepts just the words each of whose prefixes is a prefix
/// of some accepted word.
pub fn monitor_accepts()
    ensures { MonitorAccepts }
{}

/// The states of a pruned automaton are live: from each of them some lasso word is accepted.
pub fn pruned_are_live()
    ensures { PrunedAreLive }
{}

/// The subset construction of an automaton makes at most one automaton, or meets at most one limit, and never both.
pub fn subset_form_is_determined()
    ensures { SubsetFormIsDetermined }
{}

/// An automaton has one monitor.
pub fn monitor_is_determined()
    ensures { MonitorIsDetermined }
{}

/// Where there is a monitor no limit is met, and at most one limit is met.
pub fn monitor_excludes_limits()
    ensures { MonitorExcludesLimits }
{}

/// Where no limit is met there is a monitor.
pub fn monitor_exists()
    ensures { MonitorExists }
{}
