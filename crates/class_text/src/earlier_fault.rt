//! Why an earlier output does not go with a run.
ghost use Rattle.std.specs.Prelude.{◌≡◌};
ghost use Rattle.class_text.specs.declared.earlier_fault.EarlierFault.TheVariants.{Memory};

use std::alloc::AllocError;
use thiserror::Error;

/// The first line of an earlier output that is not in place, counted from 1; or want of memory.
#[derive(Clone, Copy, Debug, PartialEq, Eq, Error)]
pub enum EarlierFault {
    /// A line in the head's place differs from the run's head.
    #[error("earlier output line {line}: head differs")]
    Head { line: u32 },
    /// A line after the head is not allowed in its place.
    #[error("earlier output line {line}: not in place")]
    Body { line: u32 },
    /// There is not enough memory.
    #[error("out of memory")]
    Memory,
}

impl From<AllocError> for EarlierFault {
    ghost from_gives = { λ _ e. e ≡ Memory };

    fn from(_e: AllocError) -> EarlierFault {
        EarlierFault::Memory
    }
}
