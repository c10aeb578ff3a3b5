//! The text of an acceptance condition.

ghost use Rattle.std.specs.Prelude.{◌≡◌, ◌++◌, codes, OnOk};
ghost use Rattle.aut_base.specs.Formula.{formula_tree, formula_list};
ghost use Rattle.hoa_writer.specs.CanonicalText.{formula_text, part, set_text};
ghost use Rattle.hoa_writer.specs.inner.JoinedTexts.{list_text};

use crate::number::push_number;
use aut_base::{Formula, Formulas, Memory, Text};

/// Adds the text of a condition.
#[cycle(formula_text)]
pub(crate) fn push_formula(out: &mut Text, formula: &Formula) -> Result<(), Memory>
    ensures { OnOk result (out.new ≡ out.old ++ formula_text (formula_tree formula.now)) }
{
    match formula {
        Formula::True => out.push(b't'),
        Formula::False => out.push(b'f'),
        Formula::Inf { set, neg } => {
            out.extend(b"Inf(")?;
            push_set(out, *set, *neg)
        }
        Formula::Fin { set, neg } => {
            out.extend(b"Fin(")?;
            push_set(out, *set, *neg)
        }
        Formula::And(parts) => push_parts(out, parts, b" & "),
        Formula::Or(parts) => push_parts(out, parts, b" | "),
    }
}

/// Adds the number of an acceptance set, with `!` before it where it is negated, and `)` after it.
fn push_set(out: &mut Text, set: u32, neg: bool) -> Result<(), Memory>
    ensures { OnOk result (out.new ≡ out.old ++ (set_text set neg ++ codes ")")) }
{
    if neg {
        out.push(b'!')?;
        push_number(out, set)?;
        return out.push(b')');
    }
    push_number(out, set)?;
    out.push(b')')
}

/// Adds the parts of a conjunction or disjunction, with the separator between them.
#[cycle(formula_text)]
fn push_parts(out: &mut Text, parts: &Formulas, separator: &[u8]) -> Result<(), Memory>
    ensures { OnOk result (out.new ≡ out.old ++ list_text separator.now (formula_list parts.now)) }
{
    push_part(out, parts.at(0))?;
    'parts: for place in 1..parts.len() {
        out.extend(separator)?;
        push_part(out, parts.at(place))?;
    }
    Ok(())
}

/// Adds a part, in parentheses if it is a conjunction or disjunction itself.
#[cycle(formula_text)]
fn push_part(out: &mut Text, formula: &Formula) -> Result<(), Memory>
    ensures { OnOk result (out.new ≡ out.old ++ part (formula_tree formula.now) (formula_text (formula_tree formula.now))) }
{
    match formula {
        Formula::And(_) | Formula::Or(_) => {
            out.push(b'(')?;
            push_formula(out, formula)?;
            out.push(b')')
        }
        _ => push_formula(out, formula),
    }
}
