//! Parts that are lists of tokens.

ghost use Rattle.std.specs.Prelude.{◌≡◌, ◌∷◌, [], false, IsTrue, ◌↔◌, OnOk};
ghost use Rattle.hoa_lexer.specs.declared.token.Token.{Token};
ghost use Rattle.hoa_parser.specs.Grammar.{is_value};
ghost use Rattle.hoa_parser.specs.inner.Expecting as part;
ghost use Rattle.hoa_parser.specs.inner.Expecting.{conj_parts};
ghost use Rattle.hoa_parser.specs.inner.Parsing.{ReadsParts, Uses, reader_state};
ghost use Rattle.hoa_parser.specs.inner.RuleReads as written;
ghost use Rattle.hoa_parser.specs.inner.RuleReads.{AddsMarks, AddsNumbers, AreMarks, AreTexts, AreValues, AreWords, IsConj};

use super::tokens::{advance, number, quoted, refused, word};
use crate::ReadFault;
use aut_base::{FewNumbers, Seq, Words};
use aut_io::Inputs;
use hoa_lexer::{Lexer, Name, Token};
use std::alloc::Global;

/// conj = INT ("&" INT)*
#[inline]
pub(super) fn conj<I: Inputs>(
    alloc: Global,
    lexer: &mut Lexer,
    inputs: &mut I,
    ahead: &mut Token,
) -> Result<FewNumbers, ReadFault>
    requires unspent { lexer.old.spent ≡ false }
    ensures reads { ReadsParts conj_parts [] IsConj result
        (reader_state lexer.old ahead.old (I.seen inputs.old)) (reader_state lexer.new ahead.new (I.seen inputs.new)) }
    ensures uses { OnOk result (Uses lexer.old lexer.new) }
{
    let mut numbers = FewNumbers::new(alloc);
    let first = number(alloc, lexer, inputs, ahead)?;
    numbers.push(first)?;
    more_numbers(alloc, lexer, inputs, ahead, numbers)
}

/// ("&" INT)*, behind the numbers that were read before
pub(super) fn more_numbers<I: Inputs>(
    alloc: Global,
    lexer: &mut Lexer,
    inputs: &mut I,
    ahead: &mut Token,
    mut numbers: FewNumbers,
) -> Result<FewNumbers, ReadFault>
    requires unspent { lexer.old.spent ≡ false }
    ensures reads { ReadsParts (part.MoreNumbers ∷ []) [] (AddsNumbers numbers) result
        (reader_state lexer.old ahead.old (I.seen inputs.old)) (reader_state lexer.new ahead.new (I.seen inputs.new)) }
{
    'numbers: loop {
        match ahead {
            Token::Amp => {}
            _ => return Ok(numbers),
        }
        advance(alloc, lexer, inputs, ahead)?;
        let next = number(alloc, lexer, inputs, ahead)?;
        numbers.push(next)?;
    }
}

/// STRING*
pub(super) fn strings<I: Inputs>(
    alloc: Global,
    lexer: &mut Lexer,
    inputs: &mut I,
    ahead: &mut Token,
) -> Result<Words, ReadFault>
    requires unspent { lexer.old.spent ≡ false }
    ensures reads { ReadsParts (part.Strings ∷ []) [] AreTexts result
        (reader_state lexer.old ahead.old (I.seen inputs.old)) (reader_state lexer.new ahead.new (I.seen inputs.new)) }
{
    let mut texts = Words::new(alloc);
    'texts: loop {
        match ahead {
            Token::Str(_) => {}
            _ => return Ok(texts),
        }
        let text = quoted(alloc, lexer, inputs, ahead)?;
        texts.push(text)?;
    }
}

/// IDENTIFIER*
pub(super) fn words<I: Inputs>(
    alloc: Global,
    lexer: &mut Lexer,
    inputs: &mut I,
    ahead: &mut Token,
) -> Result<Seq<Name>, ReadFault>
    requires unspent { lexer.old.spent ≡ false }
    ensures reads { ReadsParts (part.Words ∷ []) [] AreWords result
        (reader_state lexer.old ahead.old (I.seen inputs.old)) (reader_state lexer.new ahead.new (I.seen inputs.new)) }
{
    let mut words = Seq::new(alloc);
    'words: loop {
        match ahead {
            Token::Identifier(_) => {}
            _ => return Ok(words),
        }
        let word = word(alloc, lexer, inputs, ahead)?;
        words.push(word)?;
    }
}

/// INT | IDENTIFIER, and STRING where texts are values too
fn is_value(token: &Token, texts: bool) -> bool
    ensures { result ≡ is_value texts token.now }
{
    match token {
        Token::Int(_) | Token::Identifier(_) => true,
        Token::Str(_) => texts,
        _ => false,
    }
}

/// (INT | IDENTIFIER)*, with STRING among them where texts are values too
pub(super) fn values<I: Inputs>(
    alloc: Global,
    lexer: &mut Lexer,
    inputs: &mut I,
    ahead: &mut Token,
    texts: bool,
) -> Result<(), ReadFault>
    requires unspent { lexer.old.spent ≡ false }
    ensures reads { ReadsParts (written.values_part texts ∷ []) [] (AreValues texts) result
        (reader_state lexer.old ahead.old (I.seen inputs.old)) (reader_state lexer.new ahead.new (I.seen inputs.new)) }
{
    'values: loop {
        if !is_value(ahead, texts) {
            return Ok(());
        }
        advance(alloc, lexer, inputs, ahead)?;
    }
}

/// sig?, with sig = "{" INT* "}"
#[inline]
pub(super) fn maybe_marks<I: Inputs>(
    alloc: Global,
    lexer: &mut Lexer,
    inputs: &mut I,
    ahead: &mut Token,
) -> Result<FewNumbers, ReadFault>
    requires unspent { lexer.old.spent ≡ false }
    ensures reads { ReadsParts (part.MaybeMarks ∷ []) [] AreMarks result
        (reader_state lexer.old ahead.old (I.seen inputs.old)) (reader_state lexer.new ahead.new (I.seen inputs.new)) }
{
    let marks = FewNumbers::new(alloc);
    match ahead {
        Token::LeftBrace => {}
        _ => return Ok(marks),
    }
    advance(alloc, lexer, inputs, ahead)?;
    marks_behind(alloc, lexer, inputs, ahead, marks)
}

/// INT* "}", behind the marks that were read before
fn marks_behind<I: Inputs>(
    alloc: Global,
    lexer: &mut Lexer,
    inputs: &mut I,
    ahead: &mut Token,
    mut marks: FewNumbers,
) -> Result<FewNumbers, ReadFault>
    requires unspent { lexer.old.spent ≡ false }
    ensures reads { ReadsParts (part.Marks ∷ []) [] (AddsMarks marks) result
        (reader_state lexer.old ahead.old (I.seen inputs.old)) (reader_state lexer.new ahead.new (I.seen inputs.new)) }
{
    'marks: loop {
        match ahead {
            Token::Int(mark) => marks.push(*mark)?,
            Token::RightBrace => break,
            _ => return Err(refused(lexer)),
        }
        advance(alloc, lexer, inputs, ahead)?;
    }
    advance(alloc, lexer, inputs, ahead)?;
    Ok(marks)
}
