//! The trait of input sources.

ghost use Rattle.std.specs.Prelude.{◌≡◌, ◌≤◌, ℕ, List, length, take};
ghost use Rattle.aut_io.specs.Seen.{Nexts, Opens, Seen, SkipsBytes};

use aut_base::{Failed, OpenFail, Text};

// Why so: 'All that inputs tell is one value, and one relation says what every call of a reader keeps' in docs/DECISIONS.md.
/// A source of named texts. One text at a time is open; it is read byte by byte, or by several bytes at once where they are buffered
/// (at hand).
pub trait Inputs {
    /// What contracts see of the object: its texts, the unread rest of the open one, how many times `open` was called, and how many
    /// calls failed.
    ghost seen: { Self → Seen };

    /// The bytes at hand: the next bytes of the open text, as many as are buffered.
    ghost at_hand: { Self → List ℕ };

    /// Which names may be opened, the same for all objects of one type.
    ghost may_open: { List ℕ → Type 0 };

    /// Opens the text of this name, in place of the one that was open. After an error no text is open.
    fn open(&mut self, name: &Text) -> Result<(), OpenFail>
        requires { may_open name.now }
        ensures { Opens (seen self.old) name.now result (seen self.new) };

    /// Takes the next byte of the open text, or answers None where the text is at its end or none is open.
    fn next(&mut self) -> Result<Option<u8>, Failed>
        ensures { Nexts (seen self.old) result (seen self.new) };

    // Why so: 'Words are taken by runs' in docs/DECISIONS.md.
    /// The bytes at hand. There may be none, even before the end of the text.
    fn ahead(&self) -> &[u8]
        ensures { result.now ≡ at_hand self.now };

    /// Takes this many of the bytes at hand. It can't fail.
    fn skip(&mut self, count: usize)
        requires { count ≤ length (at_hand self.old) }
        ensures { SkipsBytes (seen self.old) (take count (at_hand self.old)) (seen self.new) };
}
