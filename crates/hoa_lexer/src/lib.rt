//! The tokens of HOA v1, read byte by byte, and words by runs of the bytes at hand: each token the longest that the bytes
//! allow, and not one byte more is taken than tells that it ends.
//!
//! A caller sees the lexer, its tokens with their names, its faults, and laws. `specs/Text` and `specs/Spelling` define the
//! next token of a text, `specs/Reading` what an answer of the lexer means in those terms, and `specs/Moves` what each call
//! counts. `specs/Blanks` defines what may occur between tokens, and `specs/Bytes` the kinds of bytes; `specs/inner` is about
//! the inner functions.
#![tactic(auto)]

mod laws;
mod lexer;
mod name;
mod token;

pub use laws::{
    last_is_asked_for, one_next, one_next_token, one_token_list, some_next, spelled_apart_is_read,
    token_examples,
};
pub use lexer::Lexer;
pub use name::Name;
pub use token::{LexFault, Token};
