//! What comes of any calls on a board.
ghost use Rattle.std.specs.Prelude.{ℕ, List, Option};
ghost use Rattle.ntfe_model.specs.Shapes.{Shape};
ghost use Rattle.choice_board.specs.Counts.{AreCounted};
ghost use Rattle.choice_board.specs.Courses.{Event, IsCourse, IsWithoutGaps, classes_told};
ghost use Rattle.choice_board.specs.States.{State};

/// A law: whatever calls are made on a new board, the classes that it hands out rise, all are
/// extendable, and each choice above the start that is not above the last class was handed out or
/// begins with a pruned key, which its certificate blocks. Once the board is finished and has not
/// stopped, this is so of each choice above the start. The function does nothing: its contract is
/// the law.
pub fn classes_have_no_gaps()
    ensures { (g : Shape) (after : Option (List ℕ)) (events : List Event) (t : State) → IsCourse g after events t → IsWithoutGaps g after (classes_told events) t }
{}

/// A law: whatever calls are made on a new board, its totals count them, each up to 2^63. The
/// function does nothing: its contract is the law.
pub fn totals_count_the_calls()
    ensures { (g : Shape) (after : Option (List ℕ)) (events : List Event) (t : State) → IsCourse g after events t → AreCounted events t.totals }
{}
