//! Values of options that are patterns of words.

ghost use Rattle.filter_plan.specs.Table.{IsPattern};

use crate::UsageFault;
use crate::reading::OptionValue;
use aut_base::Text;
use std::alloc::Global;
use word_syntax::{Pattern, WordFault, read_word};

impl OptionValue for Pattern {
    ghost is_read = { IsPattern };

    /// The pattern that the text spells.
    fn read(alloc: Global, text: &str) -> Result<Pattern, UsageFault> {
        let word = Text::from_bytes(alloc, text.as_bytes())?;
        match read_word(alloc, &word) {
            Ok(pattern) => Ok(pattern),
            Err(WordFault::BadWord(_)) => Err(UsageFault::Usage),
            Err(WordFault::Memory) => Err(UsageFault::Memory),
        }
    }
}
