//! The items of a header.

ghost use Rattle.std.specs.Prelude.{◌≡◌, ◌≢◌, ◌++◌, ◌∷◌, [], false, OnOk};
ghost use Rattle.hoa_lexer.specs.declared.token.Token.{Token};
ghost use Rattle.hoa_parser.specs.declared.header.Header.{Header};
ghost use Rattle.hoa_parser.specs.inner.Expecting as part;
ghost use Rattle.hoa_parser.specs.inner.Parsing.{ReadsParts, Uses, reader_state};
ghost use Rattle.hoa_parser.specs.inner.Expecting.{header_parts};
ghost use Rattle.hoa_parser.specs.inner.RuleReads.{AreItems, IsItem, IsItemOf, IsItemWritten};

use super::condition::condition;
use super::label::label;
use super::lists::{conj, strings, values, words};
use super::tokens::{alias_name, maybe_quoted, number, quoted, refused, take, word};
use crate::header::{Header, header_named};
use crate::{Item, Items, ReadFault};
use aut_io::Inputs;
use hoa_lexer::{Lexer, Name, Token};
use std::alloc::Global;

/// item*, up to `--BODY--`
pub(super) fn items<I: Inputs>(
    alloc: Global,
    lexer: &mut Lexer,
    inputs: &mut I,
    ahead: &mut Token,
) -> Result<Items, ReadFault>
    requires unspent { lexer.old.spent ≡ false }
    ensures reads { ReadsParts (part.Items ∷ []) (part.Items ∷ []) AreItems result
        (reader_state lexer.old ahead.old (I.seen inputs.old)) (reader_state lexer.new ahead.new (I.seen inputs.new)) }
    ensures ends { OnOk result (ahead.new ≡ Token.Body) }
{
    let mut items = Items::new(alloc);
    'items: loop {
        match ahead {
            Token::HeaderName(_) => {}
            Token::Body => return Ok(items),
            _ => return Err(refused(lexer)),
        }
        let item = item(alloc, lexer, inputs, ahead)?;
        items.push(item)?;
    }
}

/// One item, which begins with the name of its header.
fn item<I: Inputs>(
    alloc: Global,
    lexer: &mut Lexer,
    inputs: &mut I,
    ahead: &mut Token,
) -> Result<Item, ReadFault>
    requires unspent { lexer.old.spent ≡ false }
    requires no_body { ahead.old ≢ Token.Body }
    ensures reads { ReadsParts (part.Items ∷ []) (part.Items ∷ []) IsItem result
        (reader_state lexer.old ahead.old (I.seen inputs.old)) (reader_state lexer.new ahead.new (I.seen inputs.new)) }
    ensures uses { OnOk result (Uses lexer.old lexer.new) }
{
    let header = match ahead {
        Token::HeaderName(name) => header_named(name),
        _ => return Err(refused(lexer)),
    };
    match header {
        Header::Opening | Header::State => return Err(refused(lexer)),
        _ => {}
    }
    match take(alloc, lexer, inputs, ahead)? {
        Token::HeaderName(name) => item_of(alloc, lexer, inputs, ahead, header, name),
        _ => unreachable!(),
    }
}

/// What stands behind the name of a header.
fn item_of<I: Inputs>(
    alloc: Global,
    lexer: &mut Lexer,
    inputs: &mut I,
    ahead: &mut Token,
    header: Header,
    name: Name,
) -> Result<Item, ReadFault>
    requires unspent { lexer.old.spent ≡ false }
    requires no_opening { header ≢ Header.Opening }
    requires no_state { header ≢ Header.State }
    ensures reads { ReadsParts (header_parts header) [] (IsItemOf header name) result
        (reader_state lexer.old ahead.old (I.seen inputs.old)) (reader_state lexer.new ahead.new (I.seen inputs.new)) }
{
    match header {
        Header::Other | Header::Opening | Header::State => {
            values(alloc, lexer, inputs, ahead, true)?;
            Ok(Item::Other(name))
        }
        _ => known_item(alloc, lexer, inputs, ahead, header),
    }
}

/// The same behind a name that HOA v1 gives a meaning: the header says it all.
fn known_item<I: Inputs>(
    alloc: Global,
    lexer: &mut Lexer,
    inputs: &mut I,
    ahead: &mut Token,
    header: Header,
) -> Result<Item, ReadFault>
    requires unspent { lexer.old.spent ≡ false }
    requires no_opening { header ≢ Header.Opening }
    requires no_state { header ≢ Header.State }
    requires no_other { header ≢ Header.Other }
    ensures reads { ReadsParts (header_parts header) [] (IsItemWritten header) result
        (reader_state lexer.old ahead.old (I.seen inputs.old)) (reader_state lexer.new ahead.new (I.seen inputs.new)) }
{
    match header {
        Header::States => Ok(Item::States(number(alloc, lexer, inputs, ahead)?)),
        Header::Start => Ok(Item::Start(conj(alloc, lexer, inputs, ahead)?)),
        // INT STRING*
        Header::Ap => {
            let count = number(alloc, lexer, inputs, ahead)?;
            let names = strings(alloc, lexer, inputs, ahead)?;
            Ok(Item::Ap { count, names })
        }
        // ANAME label
        Header::Alias => {
            let name = alias_name(alloc, lexer, inputs, ahead)?;
            let label = label(alloc, lexer, inputs, ahead, 0)?;
            Ok(Item::Alias { name, label })
        }
        // INT formula
        Header::Acceptance => {
            let sets = number(alloc, lexer, inputs, ahead)?;
            let formula = condition(alloc, lexer, inputs, ahead, 0)?;
            Ok(Item::Acceptance { sets, formula })
        }
        // IDENTIFIER (INT | IDENTIFIER)*
        Header::AccName => {
            word(alloc, lexer, inputs, ahead)?;
            values(alloc, lexer, inputs, ahead, false)?;
            Ok(Item::AccName)
        }
        // STRING STRING?
        Header::Tool => {
            quoted(alloc, lexer, inputs, ahead)?;
            maybe_quoted(alloc, lexer, inputs, ahead)?;
            Ok(Item::Tool)
        }
        Header::Name => Ok(Item::Name(quoted(alloc, lexer, inputs, ahead)?)),
        Header::Properties => Ok(Item::Properties(words(alloc, lexer, inputs, ahead)?)),
        Header::Other | Header::Opening | Header::State => unreachable!(),
    }
}
