//! Each fault of a text is shown by some byte, so a reader can stop there.

ghost use Rattle.autfilt_laws.specs.PlaceExamples.{WhatIsLeft};
ghost use Rattle.autfilt_laws.specs.Places.{BadIsShown, CutIsShown, DeepIsShown, NoneAsksBehind, WholePassesOthers};

/// Wherever a text can't be continued, nests too deep or ends early, there is a byte at which a reader may stop.
pub fn refusals_are_shown()
    ensures bad { BadIsShown }
    ensures deep { DeepIsShown }
    ensures cut { CutIsShown }
{}

/// After a whole automaton no reader asks for another byte of it.
pub fn none_asks_behind()
    ensures { NoneAsksBehind }
{}

/// The limits of depth and of bytes are passed while a text is read, and never by an automaton that was read whole.
pub fn whole_passes_others()
    ensures { WholePassesOthers }
{}

/// What is left of some small texts.
pub fn place_examples()
    ensures { WhatIsLeft }
{}
