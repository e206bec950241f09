//! One solve from its start to its answer.
ghost use Rattle.std.specs.Prelude.{◌≡◌, ◌<◌, ◌≤◌, ◌^◌, map, length, vec_capacity};
ghost use Rattle.ntfe_model.specs.Solver.{fold_row};
ghost use Rattle.strict_solver.specs.Grids.{HasSameRoom};
ghost use Rattle.strict_solver.specs.Starts.{HasRoomFor, AreFoldsOver};
ghost use Rattle.strict_solver.specs.Outcomes.{IsOutcome};

use crate::grid::Grid;
use ntfe_model::Fold;

/// What a solve answers.
#[derive(Clone, Copy, Drop, PartialEq, Eq, Debug)]
pub enum Solved {
    /// The heights make every row at least 1.
    Feasible,
    /// The rows times the multipliers cancel.
    Infeasible,
    /// The first step with a number of size at least 2^width, and its first such number.
    Wide { step: u64, number: i128 },
}

/// Solves the rows of the folds, and writes the heights or the multipliers.
pub fn run(
    grid: &mut Grid,
    rows: &[Fold],
    width: u8,
    heights: &mut Vec<i64>,
    multipliers: &mut Vec<(u32, i64)>,
) -> Solved
    requires low { 1 ≤ width }
    requires high { width ≤ 62 }
    requires room { HasRoomFor (length rows.now) grid.old }
    requires folds { AreFoldsOver grid.old.columns rows.now }
    requires heights { length heights.old.items ≡ grid.old.columns }
    requires multipliers { length rows.now ≤ vec_capacity multipliers.old }
    requires few { length rows.now < 2 ^ 32 }
    ensures room { HasSameRoom grid.old grid.new }
    ensures heights { length heights.new.items ≡ length heights.old.items }
    ensures multipliers { vec_capacity multipliers.new ≡ vec_capacity multipliers.old }
    ensures answer { IsOutcome grid.old.columns (map (fold_row grid.old.columns) rows.now) width result heights.new.items multipliers.new.items }
{
    if let Some(number) = grid.start(rows, width) {
        return Solved::Wide { step: 0, number };
    }
    let step = match grid.load(width) {
        Ok(step) => step,
        Err(wide) => {
            return Solved::Wide {
                step: wide.step,
                number: wide.number,
            };
        }
    };
    match grid.settle(step, width) {
        Err(wide) => Solved::Wide {
            step: wide.step,
            number: wide.number,
        },
        Ok((_, Some(slack))) => {
            grid.write_multipliers(slack, multipliers);
            Solved::Infeasible
        }
        Ok((step, None)) => match grid.write_heights(width, heights) {
            Some(number) => Solved::Wide {
                step: step.saturating_add(1),
                number,
            },
            None => Solved::Feasible,
        },
    }
}
