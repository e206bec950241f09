//! How a run ends.
ghost use Rattle.std.specs.Prelude.{◌≡◌};
ghost use Rattle.ntfe_run.specs.Codes.{code_of};
ghost use Rattle.ntfe_run.specs.Statuses.{status_of_lines as lines_status};

use class_text::EarlierFault;
use io_edge::LineFault;
use lattice_points::PointFault;
use ntfe_model::Choice;
use pair_text::TextFault;
use reflexive_pair::PairFault;

/// Why the input was refused. No want of memory occurs in it.
#[derive(Drop, Debug, PartialEq, Eq)]
pub enum Refusal {
    /// The source gave one byte more than this many.
    Size { limit: u32 },
    /// No line's only field is `output`.
    NoOutput,
    /// The bytes are no pair text.
    Text(TextFault),
    /// The pair is not reflexive.
    Pair(PairFault),
    /// The polytope's box is too wide, or it has too many points.
    Points(PointFault),
    /// The earlier output does not go with the run.
    Earlier(EarlierFault),
}

/// How a run ends.
#[derive(Drop)]
pub enum Status {
    /// The whole answer was written.
    Done,
    /// The words have no meaning.
    Usage,
    /// The input was refused.
    Refused(Refusal),
    /// The solver's numbers are too wide on this choice: at this step it comes to this number.
    Overflow {
        choice: Choice,
        step: u64,
        number: i128,
    },
    /// The two-face, from 0, has more items than the item limit.
    Limit {
        face: u32,
    },
    /// There was no memory.
    Memory,
    /// The source failed.
    ReadFault,
    /// The sink for the answer failed.
    WriteFault,
}

impl Status {
    /// The exit status of the program.
    pub fn code(&self) -> u8
        ensures { result ≡ code_of self.now }
    {
        match self {
            Status::Done => 0,
            Status::Usage => 2,
            Status::Refused(_) => 3,
            Status::Overflow { .. } => 4,
            Status::Limit { .. } => 5,
            Status::Memory => 6,
            Status::ReadFault => 7,
            Status::WriteFault => 8,
        }
    }
}

/// The status after the writing of the last lines.
pub fn status_of_lines(written: Result<(), LineFault>) -> Status
    ensures { result ≡ lines_status written }
{
    match written {
        Ok(()) => Status::Done,
        Err(LineFault::Write) => Status::WriteFault,
        Err(LineFault::Memory) => Status::Memory,
    }
}
