//! Patterns of lasso words, and the errors of reading one.

ghost use Rattle.std.specs.Prelude.{◌≡◌, ◌+◌, ◌<◌, ◌^◌, length};
ghost use Rattle.word_syntax.specs.Below.{AllLabelsBelow, AllLabelsBelow-prop};

use aut_base::{Label, Memory, Names, Seq};

/// Labels, in order.
pub type LabelList = Seq<Label>;

/// A pattern of lasso words: a formula for each letter of the stem and of the cycle. A formula refers to a proposition by the
/// index of its name in `names`.
#[derive(Debug)]
pub struct Pattern {
    pub names: Names,
    pub stem: LabelList,
    pub cycle: LabelList,
    ghost goes_on: { 0 < length cycle },
    ghost few: { length stem + length cycle < 2 ^ 32 },
    ghost stem_below: { AllLabelsBelow (length names) stem } by { AllLabelsBelow-prop (length names) stem },
    ghost cycle_below: { AllLabelsBelow (length names) cycle } by { AllLabelsBelow-prop (length names) cycle },
}

// Written down, so that it is proved here alone.
impl Drop for Pattern {
    fn drop(self) {
        let Pattern {
            names: _,
            stem: _,
            cycle: _,
        } = self;
    }
}

/// Why a text writes no pattern.
#[derive(Clone, Copy, Debug, PartialEq, Eq)]
pub enum WordFault {
    /// The text is no pattern: it has an error at this byte offset.
    BadWord(u64),
    /// Want of memory.
    Memory,
}

impl From<Memory> for WordFault {
    ghost use Rattle.word_syntax.specs.declared.pattern.WordFault.{WordFault};

    ghost from_gives = { λ _ fault. fault ≡ WordFault.Memory };

    fn from(_want: Memory) -> WordFault {
        WordFault::Memory
    }
}
