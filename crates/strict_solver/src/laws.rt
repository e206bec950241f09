//! How many pivots the stated solver makes, that it ends, and how it goes on when one more row comes.
ghost use Rattle.std.specs.Prelude.{ℕ, ◌+◌, ◌^◌, ◌<◌, ◌⊎◌, ℤ, List, [], ◌∷◌, ◌++◌, length, None};
ghost use Rattle.strict_solver.specs.Continuing.{IsOneRowMore};
ghost use Rattle.ntfe_model.specs.Solver.{Table, start_table, IsRun, IsFeasible, IsInfeasible};
ghost use Rattle.strict_solver.specs.Lengths.{AreRowsOver, IsMovingRun};

/// A law: where n rows have a coefficient for each height, fewer than 2^n pivots come once no height is left to be
/// loaded. Heights neither enter nor leave then, and no set of basic slacks comes twice. The function does nothing: its
/// contract is the law.
pub fn moving_is_short()
    ensures { (columns : ℕ) (rs : List (List ℤ)) (s : Table) (moved : List Table) (t : Table) → AreRowsOver columns rs → IsMovingRun columns rs s moved t → length moved < 2 ^ length rs }
{}

/// A law: over N heights and n rows with a coefficient for each, a whole run makes fewer than N + 2^n pivots, since each
/// height is loaded once at most. The function does nothing: its contract is the law.
pub fn run_is_short()
    ensures { (columns : ℕ) (rs : List (List ℤ)) (tables : List Table) (t : Table) → AreRowsOver columns rs → IsRun columns (start_table columns rs) tables t → length tables < columns + 2 ^ length rs }
{}

/// A law: over any number of heights and any rows with a coefficient for each, the run without a width comes to an end,
/// either with heights or with multipliers. The function does nothing: its contract is the law.
pub fn run_ends()
    ensures { (columns : ℕ) (rs : List (List ℤ)) → AreRowsOver columns rs → ((heights : List ℤ) × IsFeasible columns rs None heights) ⊎ ((multipliers : List (ℕ × ℤ)) × IsInfeasible columns rs None multipliers) }
{}

/// A law: when one more row comes after the others, the run without a width goes on from its end. Nothing is done again.
/// The function does nothing: its contract is the law.
pub fn goes_on()
    ensures { (columns : ℕ) (rs : List (List ℤ)) (q : List ℤ) → AreRowsOver columns (rs ++ q ∷ []) → IsOneRowMore columns rs q }
{}
