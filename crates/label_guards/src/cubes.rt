//! The text of a guard, cube by cube.

ghost use Rattle.std.specs.Prelude.{◌≡◌, ◌++◌, [], ◌∷◌, ◌<◌, Bool, true, map, IfOk, IfSome, OnErr, OnOk};
ghost use Rattle.aut_base.specs.LabelText.{label_text, literal_text};
ghost use Rattle.label_guards.specs.Pieces.{IsLonger, WritesCubes, cube_piece, literal_of, place_cubes};
ghost use Rattle.label_guards.specs.Store.{Has, HasPlace, label_in};

use crate::guard::Guard;
use crate::guards::Guards;
use aut_base::{Memory, Text};
use std::alloc::Global;

/// A proposition, and whether it holds.
#[derive(Clone, Copy)]
pub(crate) struct Literal {
    pub(crate) prop: u32,
    pub(crate) holds: bool,
}

impl Guards {
    /// The canonical text of the guard's label: its cubes, the one with the first proposition failing first.
    pub fn cubes(&self, alloc: Global, g: Guard) -> Result<Text, Memory>
        requires { Has self.now g }
        ensures { IfOk result (λ text. text ≡ label_text self.now.names (label_in self.now g)) }
    {
        let mut text = Text::new(alloc);
        self.push_cubes(alloc, &mut text, g)?;
        Ok(text)
    }

    /// Adds the canonical text of the guard's label, as `cubes` gives it. The labels `t`, `f` and those of one literal
    /// take no memory but that of the text. Refused for want of memory, it leaves what was there, and maybe a part behind it.
    pub fn push_cubes(&self, alloc: Global, out: &mut Text, g: Guard) -> Result<(), Memory>
        requires { Has self.now g }
        ensures ok { OnOk result (out.new ≡ out.old ++ label_text self.now.names (label_in self.now g)) }
        ensures err { OnErr result (IsLonger out.old out.new) }
    {
        self.reduced();
        if let Some(literal) = self.literal_at(g.place) {
            return push_literal(out, literal);
        }
        let mut cube = Vec::new(alloc);
        let is_written = self.push_place(out, &mut cube, g.place, false)?;
        if is_written {
            return Ok(());
        }
        out.push(b'f')
    }

    /// The literal that this place is, if it is one.
    fn literal_at(&self, place: usize) -> Option<Literal>
        requires { HasPlace self.now place }
        ensures { IfSome result (λ literal. place_cubes self.now place ≡ (literal_of literal ∷ []) ∷ []) }
    {
        self.reduced();
        if place < 2 {
            return None;
        }
        let node = self.node_at(place);
        match (node.low, node.high) {
            (0, 1) => Some(Literal {
                prop: node.prop,
                holds: true,
            }),
            (1, 0) => Some(Literal {
                prop: node.prop,
                holds: false,
            }),
            _ => None,
        }
    }

    /// Adds each cube of a place, under the literals of this one. ` | ` stands before each cube, but for the first
    /// of the label. Answers whether a cube of the label is written now.
    #[cycle(cubes)]
    fn push_place(
        &self,
        out: &mut Text,
        cube: &mut Vec<Literal>,
        place: usize,
        is_written: bool,
    ) -> Result<bool, Memory>
        requires { HasPlace self.now place }
        ensures kept { OnOk result (cube.new.items ≡ cube.old.items) }
        ensures gains { IsLonger out.old out.new }
        ensures cubes { IfOk result (λ now. WritesCubes (map literal_of cube.old.items) (place_cubes self.now place) is_written now out.old out.new) }
    {
        self.reduced();
        if place == 0 {
            return Ok(is_written);
        }
        if place == 1 {
            push_next(out, cube, is_written)?;
            return Ok(true);
        }
        let node = self.node_at(place);
        let fails = Literal {
            prop: node.prop,
            holds: false,
        };
        let holds = Literal {
            prop: node.prop,
            holds: true,
        };
        let is_written = self.push_side(out, cube, fails, node.low, is_written)?;
        self.push_side(out, cube, holds, node.high, is_written)
    }

    /// Adds each cube of the side of a node that stands under this literal.
    #[cycle(cubes)]
    fn push_side(
        &self,
        out: &mut Text,
        cube: &mut Vec<Literal>,
        literal: Literal,
        place: usize,
        is_written: bool,
    ) -> Result<bool, Memory>
        requires { HasPlace self.now place }
        ensures kept { OnOk result (cube.new.items ≡ cube.old.items) }
        ensures gains { IsLonger out.old out.new }
        ensures cubes { IfOk result (λ now. WritesCubes (map literal_of cube.old.items ++ literal_of literal ∷ []) (place_cubes self.now place) is_written now out.old out.new) }
    {
        cube.push(literal)?;
        let is_written = self.push_place(out, cube, place, is_written)?;
        let _ = cube.pop();
        Ok(is_written)
    }
}

/// Adds one cube more.
#[inline]
fn push_next(out: &mut Text, cube: &[Literal], is_written: bool) -> Result<(), Memory>
    ensures gains { IsLonger out.old out.new }
    ensures cubes { OnOk result (WritesCubes (map literal_of cube.now) ([] ∷ []) is_written true out.old out.new) }
{
    if !is_written {
        return push_cube(out, cube);
    }
    out.extend(b" | ")?;
    push_cube(out, cube)
}

/// Adds a cube, or `t` if it has no literal.
fn push_cube(out: &mut Text, cube: &[Literal]) -> Result<(), Memory>
    ensures ok { OnOk result (out.new ≡ out.old ++ cube_piece (map literal_of cube.now)) }
    ensures err { OnErr result (IsLonger out.old out.new) }
{
    if cube.is_empty() {
        return out.push(b't');
    }
    push_literal(out, cube[0])?;
    let others = &cube[1..];
    'others: for other in others {
        out.push(b'&')?;
        push_literal(out, *other)?;
    }
    Ok(())
}

/// Adds a literal.
#[inline]
fn push_literal(out: &mut Text, literal: Literal) -> Result<(), Memory>
    ensures ok { OnOk result (out.new ≡ out.old ++ literal_text (literal_of literal)) }
    ensures err { OnErr result (IsLonger out.old out.new) }
{
    if literal.holds {
        return out.push_decimal(u64::from(literal.prop));
    }
    out.push(b'!')?;
    out.push_decimal(u64::from(literal.prop))
}
