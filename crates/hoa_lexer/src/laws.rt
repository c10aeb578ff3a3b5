//! Laws of the definitions, which no code runs.

ghost use Rattle.hoa_lexer.specs.Laws.{LastIsAskedFor, OneNext, OneNextToken, OneTokenList, SomeNext, SpelledApartIsRead};
ghost use Rattle.hoa_lexer.specs.TokenExamples.{TokenExamples};

/// A text has at most one next token.
pub fn one_next_token()
    ensures { OneNextToken }
{}

/// A text has at most one list of tokens up to blanks.
pub fn one_token_list()
    ensures { OneTokenList }
{}

/// At most one of these is so of a text: only blanks are left, a token is next, no token can begin there, or the text ends
/// inside one.
pub fn one_next()
    ensures { OneNext }
{}

/// At least one of these is so of every text.
pub fn some_next()
    ensures { SomeNext }
{}

/// A token never takes a byte too many: without its last byte no token is complete, and there could be one.
pub fn last_is_asked_for()
    ensures { LastIsAskedFor }
{}

/// Tokens that are spelled one after the other, each followed by spaces, are read back.
pub fn spelled_apart_is_read()
    ensures { SpelledApartIsRead }
{}

/// Some texts and their tokens.
pub fn token_examples()
    ensures { TokenExamples }
{}
