//! Why bytes are no pair text.
ghost use Rattle.std.specs.Prelude.{◌≡◌};
ghost use Rattle.pair_text.specs.declared.fault.TextFault.TheVariants.{Memory};

use std::alloc::AllocFailed;
use thiserror::Error;

/// The first fault of a text, with the number of its line, counted from 1; or want of memory.
#[derive(Clone, Copy, Debug, PartialEq, Eq, Error)]
pub enum TextFault {
    /// A count line without its word and one field more, or a line without four fields where four numbers are due.
    #[error("line {line}: bad line")]
    BadLine { line: u32 },
    /// A field that must be a number is none.
    #[error("line {line}: bad number")]
    BadNumber { line: u32 },
    /// A number has a size over 1,023.
    #[error("line {line}: number too large")]
    TooLarge { line: u32 },
    /// A count is not from 5 to 64.
    #[error("line {line}: count not from 5 to 64")]
    Count { line: u32 },
    /// The lines end before the last one that is announced.
    #[error("input ends early")]
    Short,
    /// A line stands after the last one that is announced.
    #[error("line {line}: input goes on")]
    Long { line: u32 },
    /// There is not enough memory for the lists.
    #[error("out of memory")]
    Memory,
}

impl<T: Drop> From<AllocFailed<T>> for TextFault {
    ghost from_gives = { λ _ e. e ≡ Memory };

    fn from(_e: AllocFailed<T>) -> TextFault {
        TextFault::Memory
    }
}
