//! A place in the generated text.

ghost use Rattle.std.specs.Prelude.{◌≡◌, ℕ, ◌≤◌, ◌<◌, ◌++◌, Some, drop, length, slice_get};
ghost use Rattle.made_stream.specs.declared.made.TheConstants.{MOST_MADE};
ghost use Rattle.made_stream.specs.inner.Parts.{behind_part, part_back, part_front, part_number, ring_part_text, rings_behind};
ghost use Rattle.made_stream.specs.Made.{ring_text};

use super::digits::{digit_at, digit_count};

/// A part of a ring: fixed bytes, a number in decimal, and fixed bytes.
#[derive(Clone, Copy, Debug)]
pub(super) enum Part {
    /// The lines up to the body.
    Head,
    /// The line of the state.
    State,
    /// The line of the edge that leads to the state.
    Edge,
    /// The line of the edge of the last state, and the end of the automaton.
    Last,
}

/// The place of a byte: in the ring of `ring` states, in the part `part` about `state`, after `given` bytes of that part.
#[derive(Clone, Copy, Debug)]
pub(super) struct Place {
    ring: u32,
    state: u32,
    part: Part,
    given: usize,
    ghost few: { ring ≤ MOST_MADE },
    ghost in_ring: { state < ring },
    ghost within: { given < length (ring_part_text ring state part) },
}

impl Place {
    ghost use Rattle.made_stream.specs.inner.Left.{left_at};

    /// The first byte of a ring.
    pub(super) fn first(ring: u32) -> Self
        requires some { 1 ≤ ring }
        requires few { ring ≤ MOST_MADE }
        ensures { (count : ℕ) → left_at count (Some result) ≡ ring_text ring ++ rings_behind count ring }
    {
        Place {
            ring,
            state: 0,
            part: Part::Head,
            given: 0,
        }
    }

    /// The byte at the place.
    pub(super) fn byte(self) -> u8
        ensures { (count : ℕ) → slice_get (left_at count (Some self)) 0 ≡ Some result }
    {
        let front = front(self.part);
        if self.given < front.len() {
            return front[self.given];
        }
        let behind = self.given - front.len();
        let number = self.number();
        let digits = digit_count(number);
        if behind < digits {
            digit_at(number, behind)
        } else {
            back(self.ring, self.part)[behind - digits]
        }
    }

    /// The place of the next byte, if any is left.
    pub(super) fn next(self, count: u32) -> Option<Self>
        requires { count ≤ MOST_MADE }
        ensures { left_at count result ≡ drop 1 (left_at count (Some self)) }
    {
        let len = self.len();
        if self.given + 1 == len {
            return self.behind(count);
        }
        Some(Place {
            ring: self.ring,
            state: self.state,
            part: self.part,
            given: self.given + 1,
        })
    }

    /// The place of the first byte after the part, if there is any.
    fn behind(self, count: u32) -> Option<Self>
        requires { count ≤ MOST_MADE }
        ensures { left_at count result ≡ behind_part self.ring self.state self.part ++ rings_behind count self.ring }
    {
        match self.part {
            Part::Head | Part::Edge => Some(self.begin(self.state, Part::State)),
            Part::State if self.state + 1 < self.ring => {
                Some(self.begin(self.state + 1, Part::Edge))
            }
            Part::State => Some(self.begin(self.state, Part::Last)),
            Part::Last if self.ring < count => Some(Place::first(self.ring + 1)),
            Part::Last => None,
        }
    }

    /// The first byte of a part of the same ring.
    fn begin(self, state: u32, part: Part) -> Self
        requires { state < self.ring }
        ensures { (count : ℕ) → left_at count (Some result)
            ≡ ring_part_text self.ring state part ++ (behind_part self.ring state part ++ rings_behind count self.ring) }
    {
        Place {
            ring: self.ring,
            state,
            part,
            given: 0,
        }
    }

    /// The number of bytes of the part.
    fn len(self) -> usize
        ensures count { result ≡ length (ring_part_text self.ring self.state self.part) }
        ensures few { result ≤ 100 }
    {
        front(self.part).len() + digit_count(self.number()) + back(self.ring, self.part).len()
    }

    /// The number that is written in the part.
    fn number(self) -> u32
        ensures is { result ≡ part_number self.ring self.state self.part }
        ensures few { result ≤ MOST_MADE }
    {
        match self.part {
            Part::Head => self.ring,
            Part::State | Part::Edge => self.state,
            Part::Last => 0,
        }
    }
}

/// The fixed bytes of a part before its number.
fn front(part: Part) -> &'static [u8]
    ensures { result.now ≡ part_front part }
{
    match part {
        Part::Head => b"HOA: v1\nStates: ",
        Part::State => b"State: ",
        Part::Edge | Part::Last => b"[0] ",
    }
}

/// The fixed bytes of a part after its number, in a ring of `ring` states.
fn back(ring: u32, part: Part) -> &'static [u8]
    ensures { result.now ≡ part_back ring part }
{
    match part {
        Part::Head => b"\nStart: 0\nAP: 1 \"a\"\nAcceptance: 1 Inf(0)\n--BODY--\n",
        Part::State | Part::Edge => b"\n",
        Part::Last if ring % 2 == 1 => b" {0}\n--END--\n",
        Part::Last => b"\n--END--\n",
    }
}
