//! Parts of one token.

ghost use Rattle.std.specs.Prelude.{◌≡◌, [], ◌∷◌, false, IfOk, OnOk};
ghost use Rattle.hoa_lexer.specs.declared.token.Token.{Token};
ghost use Rattle.hoa_parser.specs.inner.Expecting as part;
ghost use Rattle.hoa_parser.specs.declared.fault.ReadFault.{ReadFault};
ghost use Rattle.hoa_parser.specs.inner.Parsing.{AdvancesReader, ReadsParts, Uses, reader_state};
ghost use Rattle.hoa_parser.specs.inner.RuleReads.{IsAliasToken, IsToken, IsIntToken, IsOptionalText, IsQuoted, IsIdentifierToken};

use crate::ReadFault;
use aut_base::Text;
use aut_io::Inputs;
use hoa_lexer::{Lexer, Name, Token};
use std::alloc::Global;
use std::mem;

/// Takes the token at hand, in whose place comes the one behind it.
#[inline(always)]
pub(super) fn take<I: Inputs>(
    alloc: Global,
    lexer: &mut Lexer,
    inputs: &mut I,
    ahead: &mut Token,
) -> Result<Token, ReadFault>
    requires unspent { lexer.old.spent ≡ false }
    ensures takes { IfOk result (λ token. token ≡ ahead.old) }
    ensures advances { AdvancesReader result
        (reader_state lexer.old ahead.old (I.seen inputs.old)) (reader_state lexer.new ahead.new (I.seen inputs.new)) }
{
    match lexer.next(alloc, inputs)? {
        Some(token) => Ok(mem::replace(ahead, token)),
        None => Err(ReadFault::Truncated),
    }
}

/// Reads the token behind the one at hand, which says no more.
pub(super) fn advance<I: Inputs>(
    alloc: Global,
    lexer: &mut Lexer,
    inputs: &mut I,
    ahead: &mut Token,
) -> Result<(), ReadFault>
    requires unspent { lexer.old.spent ≡ false }
    ensures { AdvancesReader result
        (reader_state lexer.old ahead.old (I.seen inputs.old)) (reader_state lexer.new ahead.new (I.seen inputs.new)) }
{
    if lexer.renew(alloc, inputs, ahead)? {
        return Ok(());
    }
    Err(ReadFault::Truncated)
}

/// What is answered of a token that cannot stand where it does: the one at hand, which the lexer gave last.
#[cold]
pub(super) fn refused(lexer: &Lexer) -> ReadFault
    ensures { result ≡ ReadFault.Syntax lexer.now.offset }
{
    ReadFault::Syntax(lexer.offset())
}

/// INT
#[inline]
pub(super) fn number<I: Inputs>(
    alloc: Global,
    lexer: &mut Lexer,
    inputs: &mut I,
    ahead: &mut Token,
) -> Result<u32, ReadFault>
    requires unspent { lexer.old.spent ≡ false }
    ensures reads { ReadsParts (part.Number ∷ []) [] IsIntToken result
        (reader_state lexer.old ahead.old (I.seen inputs.old)) (reader_state lexer.new ahead.new (I.seen inputs.new)) }
    ensures uses { OnOk result (Uses lexer.old lexer.new) }
{
    let number = match ahead {
        Token::Int(number) => *number,
        _ => return Err(refused(lexer)),
    };
    advance(alloc, lexer, inputs, ahead)?;
    Ok(number)
}

/// STRING
pub(super) fn quoted<I: Inputs>(
    alloc: Global,
    lexer: &mut Lexer,
    inputs: &mut I,
    ahead: &mut Token,
) -> Result<Text, ReadFault>
    requires unspent { lexer.old.spent ≡ false }
    ensures reads { ReadsParts (part.Quoted ∷ []) [] IsQuoted result
        (reader_state lexer.old ahead.old (I.seen inputs.old)) (reader_state lexer.new ahead.new (I.seen inputs.new)) }
    ensures uses { OnOk result (Uses lexer.old lexer.new) }
{
    match ahead {
        Token::Str(_) => {}
        _ => return Err(refused(lexer)),
    }
    match take(alloc, lexer, inputs, ahead)? {
        Token::Str(text) => Ok(text),
        _ => unreachable!(),
    }
}

/// STRING?
pub(super) fn maybe_quoted<I: Inputs>(
    alloc: Global,
    lexer: &mut Lexer,
    inputs: &mut I,
    ahead: &mut Token,
) -> Result<(), ReadFault>
    requires unspent { lexer.old.spent ≡ false }
    ensures reads { ReadsParts (part.MaybeQuoted ∷ []) [] IsOptionalText result
        (reader_state lexer.old ahead.old (I.seen inputs.old)) (reader_state lexer.new ahead.new (I.seen inputs.new)) }
{
    match ahead {
        Token::Str(_) => advance(alloc, lexer, inputs, ahead),
        _ => Ok(()),
    }
}

/// IDENTIFIER
pub(super) fn word<I: Inputs>(
    alloc: Global,
    lexer: &mut Lexer,
    inputs: &mut I,
    ahead: &mut Token,
) -> Result<Name, ReadFault>
    requires unspent { lexer.old.spent ≡ false }
    ensures reads { ReadsParts (part.Word ∷ []) [] IsIdentifierToken result
        (reader_state lexer.old ahead.old (I.seen inputs.old)) (reader_state lexer.new ahead.new (I.seen inputs.new)) }
    ensures uses { OnOk result (Uses lexer.old lexer.new) }
{
    match ahead {
        Token::Identifier(_) => {}
        _ => return Err(refused(lexer)),
    }
    match take(alloc, lexer, inputs, ahead)? {
        Token::Identifier(word) => Ok(word),
        _ => unreachable!(),
    }
}

/// ANAME
pub(super) fn alias_name<I: Inputs>(
    alloc: Global,
    lexer: &mut Lexer,
    inputs: &mut I,
    ahead: &mut Token,
) -> Result<Name, ReadFault>
    requires unspent { lexer.old.spent ≡ false }
    ensures reads { ReadsParts (part.AliasName ∷ []) [] IsAliasToken result
        (reader_state lexer.old ahead.old (I.seen inputs.old)) (reader_state lexer.new ahead.new (I.seen inputs.new)) }
{
    match ahead {
        Token::Alias(_) => {}
        _ => return Err(refused(lexer)),
    }
    match take(alloc, lexer, inputs, ahead)? {
        Token::Alias(name) => Ok(name),
        _ => unreachable!(),
    }
}

/// "("
pub(super) fn opening_paren<I: Inputs>(
    alloc: Global,
    lexer: &mut Lexer,
    inputs: &mut I,
    ahead: &mut Token,
) -> Result<(), ReadFault>
    requires unspent { lexer.old.spent ≡ false }
    ensures reads { ReadsParts (part.OpeningParen ∷ []) [] (IsToken Token.LeftParen) result
        (reader_state lexer.old ahead.old (I.seen inputs.old)) (reader_state lexer.new ahead.new (I.seen inputs.new)) }
{
    match ahead {
        Token::LeftParen => advance(alloc, lexer, inputs, ahead),
        _ => Err(refused(lexer)),
    }
}

/// ")"
pub(super) fn closing_paren<I: Inputs>(
    alloc: Global,
    lexer: &mut Lexer,
    inputs: &mut I,
    ahead: &mut Token,
) -> Result<(), ReadFault>
    requires unspent { lexer.old.spent ≡ false }
    ensures reads { ReadsParts (part.ClosingParen ∷ []) [] (IsToken Token.RightParen) result
        (reader_state lexer.old ahead.old (I.seen inputs.old)) (reader_state lexer.new ahead.new (I.seen inputs.new)) }
{
    match ahead {
        Token::RightParen => advance(alloc, lexer, inputs, ahead),
        _ => Err(refused(lexer)),
    }
}

/// "]"
pub(super) fn closing_bracket<I: Inputs>(
    alloc: Global,
    lexer: &mut Lexer,
    inputs: &mut I,
    ahead: &mut Token,
) -> Result<(), ReadFault>
    requires unspent { lexer.old.spent ≡ false }
    ensures reads { ReadsParts (part.ClosingBracket ∷ []) [] (IsToken Token.RightBracket) result
        (reader_state lexer.old ahead.old (I.seen inputs.old)) (reader_state lexer.new ahead.new (I.seen inputs.new)) }
{
    match ahead {
        Token::RightBracket => advance(alloc, lexer, inputs, ahead),
        _ => Err(refused(lexer)),
    }
}
