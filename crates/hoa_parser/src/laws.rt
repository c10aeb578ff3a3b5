//! Laws of the definitions, which no code runs.

ghost use Rattle.hoa_parser.specs.GrammarExamples.{GrammarExamples};
ghost use Rattle.hoa_parser.specs.GrammarLaws.{CanBeWrittenDown, OneRaw, WholeGoesNoFurther};
ghost use Rattle.hoa_parser.specs.Standing.{OneStanding, SomeStanding};
ghost use Rattle.hoa_parser.specs.StandingLaws.{BadIsHopeless, SettledStays, WrittenDownIsRead};

/// A list of tokens spells at most one automaton.
pub fn one_raw()
    ensures { OneRaw }
{}

/// What spells an automaton is no beginning of a longer one.
pub fn whole_goes_no_further()
    ensures { WholeGoesNoFurther }
{}

/// No more than one thing stands next in a text.
pub fn one_standing()
    ensures { OneStanding }
{}

// Why so: 'That something always stands next in a text is a law by contradiction' in docs/DECISIONS.md.
/// In every text something stands next.
pub fn some_standing()
    ensures { SomeStanding }
{}

/// What a list of tokens spells is also spelled by what is written down from it, with no more open than the list opens.
pub fn can_be_written_down()
    ensures { CanBeWrittenDown }
{}

/// What the bytes at hand settle stays so, however the text goes on.
pub fn settled_stays()
    ensures { SettledStays }
{}

/// Where the bytes at hand are bad, no text that begins with them begins with an automaton.
pub fn bad_is_hopeless()
    ensures { BadIsHopeless }
{}

/// What some lists of tokens spell.
pub fn grammar_examples()
    ensures { GrammarExamples }
{}

/// An automaton that is written down, with spaces behind each token, stands whole in its text.
pub fn written_down_is_read()
    ensures { WrittenDownIsRead }
{}
