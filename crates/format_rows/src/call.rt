//! The calls that rows are of.

use row_files::Fault;

/// A call of the lexer, the parser or the reader, or on a word.
#[derive(Clone, Copy)]
pub(crate) enum Call {
    /// No call was named yet.
    None,
    /// `Lexer::next`
    Next,
    /// `Lexer::next`, until no token is left
    All,
    /// `read_raw`
    ReadRaw,
    /// `describe`, without the automaton
    Describe,
    /// `describe`, with the automaton
    Description,
    /// `read_word`
    ReadWord,
    /// `read_name`
    ReadName,
    /// `pattern_automaton` of what is read
    PatternAutomaton,
    /// `reduce`
    Reduce,
    /// `print_word`
    PrintWord,
    /// `read_word` of what is printed
    ReadBack,
}

impl Call {
    /// The call of this name.
    pub(crate) fn named(name: &str) -> Result<Call, Fault> {
        match name {
            "next" => Ok(Call::Next),
            "all" => Ok(Call::All),
            "read_raw" => Ok(Call::ReadRaw),
            "describe" => Ok(Call::Describe),
            "description" => Ok(Call::Description),
            "read_word" => Ok(Call::ReadWord),
            "read_name" => Ok(Call::ReadName),
            "pattern_automaton" => Ok(Call::PatternAutomaton),
            "reduce" => Ok(Call::Reduce),
            "print_word" => Ok(Call::PrintWord),
            "read_back" => Ok(Call::ReadBack),
            _ => Err(Fault::UnknownKind),
        }
    }

    /// Whether it reads the text from a source.
    pub(crate) fn is_reading(self) -> bool {
        match self {
            Call::Next | Call::All | Call::ReadRaw | Call::Describe | Call::Description => true,
            _ => false,
        }
    }
}
