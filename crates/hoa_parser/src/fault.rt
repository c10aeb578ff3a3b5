//! Why no automaton was read.

ghost use Rattle.std.specs.Prelude.{◌≡◌};
ghost use Rattle.hoa_parser.specs.declared.fault.ReadFault.{ReadFault};

use aut_base::Memory;
use hoa_lexer::LexFault;
use std::alloc::{AllocError, AllocFailed};

/// Why no automaton was read.
#[derive(Clone, Copy, Debug, PartialEq, Eq)]
pub enum ReadFault {
    /// The token at this offset cannot stand there, or the bytes there are no token.
    Syntax(u64),
    /// The text ended inside an automaton, a comment or a token.
    Truncated,
    /// More `(` and `!` of a label or an acceptance condition are open than may be.
    Depth,
    /// As many bytes as the lexer may take were taken, and one more was asked for.
    Bytes,
    /// A read failed.
    Read,
    /// Want of memory.
    Memory,
}

impl From<Memory> for ReadFault {
    ghost from_gives = { λ _ fault. fault ≡ ReadFault.Memory };

    fn from(_want: Memory) -> ReadFault {
        ReadFault::Memory
    }
}

impl<T: Drop> From<AllocFailed<T>> for ReadFault {
    ghost from_gives = { λ _ fault. fault ≡ ReadFault.Memory };

    fn from(_want: AllocFailed<T>) -> ReadFault {
        ReadFault::Memory
    }
}

impl From<LexFault> for ReadFault {
    ghost use Rattle.std.specs.Prelude.{◌≡◌};
    ghost use Rattle.hoa_parser.specs.inner.Faults.{read_fault};

    ghost from_gives = { λ lexing fault. fault ≡ read_fault lexing };

    fn from(lexing: LexFault) -> ReadFault {
        match lexing {
            LexFault::BadToken(offset) => ReadFault::Syntax(offset),
            LexFault::OpenComment | LexFault::OpenString | LexFault::OpenToken => {
                ReadFault::Truncated
            }
            LexFault::Read => ReadFault::Read,
            LexFault::Bytes => ReadFault::Bytes,
            LexFault::Memory => ReadFault::Memory,
        }
    }
}
