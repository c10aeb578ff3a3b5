//! The calls of the lexer, the parser and the reader, and their answers in words.

ghost use Rattle.std.specs.Prelude.{◌≡◌, false};

use crate::automata::{show_raw, show_read_fault};
use crate::call::Call;
use crate::descriptions::show_described;
use crate::script::{Counts, Script};
use crate::tokens::{show_fault, show_token};
use aut_io::Inputs;
use hoa_lexer::Lexer;
use hoa_parser::{Front, Raw, read_raw};
use row_files::Answer;
use std::alloc::Global;

/// Adds the answers of a script.
pub(crate) fn read<I: Inputs>(
    alloc: Global,
    answer: &mut Answer,
    script: Script,
    inputs: &mut I,
) -> Counts {
    let mut lexer = Lexer::new(u64::from(script.most));
    ask_all_times(alloc, answer, script, &mut lexer, inputs);
    Counts {
        taken: lexer.taken(),
        left: bytes_left(inputs),
    }
}

/// Adds the answers of the calls of a script, and a line feed.
fn ask_all_times<I: Inputs>(
    alloc: Global,
    answer: &mut Answer,
    script: Script,
    lexer: &mut Lexer,
    inputs: &mut I,
) {
    for time in 0..script.most_times() {
        if lexer.is_spent() {
            break;
        }
        if time > 0 {
            answer.add(b" ");
        }
        if !ask(alloc, answer, script.call, lexer, inputs) {
            break;
        }
        if script.begin == Some(time.saturating_add(1)) {
            lexer.begin();
            answer.add(b" begin@");
            answer.add_number(lexer.offset());
        }
    }
    answer.add(b"\n");
}

/// How many bytes are left of the open text. They are read for it, again after reads that fail.
fn bytes_left<I: Inputs>(inputs: &mut I) -> u64 {
    let mut left = 0u64;
    for _ in 0..u32::MAX {
        match inputs.next() {
            Ok(Some(_)) => left = left.saturating_add(1),
            Ok(None) => break,
            Err(_) => {}
        }
    }
    left
}

/// Adds the answer of a call, and answers whether another may follow.
fn ask<I: Inputs>(
    alloc: Global,
    answer: &mut Answer,
    call: Call,
    lexer: &mut Lexer,
    inputs: &mut I,
) -> bool
    requires { lexer.old.spent ≡ false }
{
    match call {
        Call::Next | Call::All => ask_next(alloc, answer, call, lexer, inputs),
        _ => ask_automaton(alloc, answer, call, lexer, inputs),
    }
}

/// Adds the next token, and answers whether there is one. Where all tokens are asked for, a fault stands alone.
fn ask_next<I: Inputs>(
    alloc: Global,
    answer: &mut Answer,
    call: Call,
    lexer: &mut Lexer,
    inputs: &mut I,
) -> bool
    requires { lexer.old.spent ≡ false }
{
    match lexer.next(alloc, inputs) {
        Ok(Some(token)) => {
            show_token(answer, &token, lexer.offset());
            true
        }
        Ok(None) => {
            answer.add(b"end");
            false
        }
        Err(fault) => {
            if let Call::All = call {
                *answer = Answer::new(alloc);
            }
            show_fault(answer, fault);
            false
        }
    }
}

/// Adds the next automaton, or what is said of it, and answers whether more may follow.
fn ask_automaton<I: Inputs>(
    alloc: Global,
    answer: &mut Answer,
    call: Call,
    lexer: &mut Lexer,
    inputs: &mut I,
) -> bool
    requires { lexer.old.spent ≡ false }
{
    match read_raw(alloc, lexer, inputs) {
        Ok(Front::Whole(raw)) => {
            add_raw(alloc, answer, call, &raw);
            true
        }
        Ok(Front::Aborted) => {
            answer.add(b"aborted");
            true
        }
        Ok(Front::Blank) => {
            answer.add(b"none");
            false
        }
        Err(fault) => {
            show_read_fault(answer, fault);
            false
        }
    }
}

/// Adds an automaton, as the call answers it.
fn add_raw(alloc: Global, answer: &mut Answer, call: Call, raw: &Raw) {
    match call {
        Call::Describe => show_described(alloc, answer, raw, false),
        Call::Description => show_described(alloc, answer, raw, true),
        _ => show_raw(answer, raw),
    }
}
