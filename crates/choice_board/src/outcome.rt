//! What the board hands out.
ghost use Rattle.std.specs.Prelude.{◌≡◌, ◌≤◌, ◌^◌, length};
ghost use Rattle.choice_board.specs.Telling.{outcome_told};

use crate::record::Found;
use crate::rows::Keyed;
use ntfe_model::{Choice, Heights, Key};

/// What is told of a choice, or of a two-face.
#[derive(Drop)]
pub enum Outcome {
    /// An extendable choice with its heights.
    Class(Choice, Heights),
    /// A choice on which the solver's numbers are too wide, at this step with this number.
    Wide {
        choice: Choice,
        step: u64,
        number: i128,
    },
    /// The two-face, from 0, has an item whose number is the item limit.
    Far {
        face: u32,
    },
}

/// What is told of a key where this was found.
pub(crate) fn outcome_of(key: &Key, found: Found) -> Outcome
    requires some { 1 ≤ length key.now }
    requires few { length key.now ≤ 2 ^ 32 }
    ensures { result ≡ outcome_told key.now found }
{
    match found {
        Found::Class { choice, heights } => Outcome::Class(choice, heights),
        Found::Wide {
            choice,
            step,
            number,
        } => Outcome::Wide {
            choice,
            step,
            number,
        },
        Found::Far => Outcome::Far {
            face: (key.numbers().len() - 1) as u32,
        },
    }
}
