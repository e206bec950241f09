//! Along a word to its end, and from its end on to the next word.
ghost use Rattle.std.specs.Prelude.{◌≡◌, ℕ, List, [], IfOk, OnOk, MatchBool};
ghost use Rattle.ntfe_model.specs.Lists.{IsBelow};
ghost use Rattle.ntfe_model.specs.Words.{Closes};
ghost use Rattle.ntfe_model.specs.declared.triangle.Triangle.{Triangle};
ghost use Rattle.fine_stream.specs.Kept.{Keeps, spelled};
ghost use Rattle.fine_stream.specs.Places.{ArePlaced, AreTables};
ghost use Rattle.fine_stream.specs.Cursors.{IsWhole, FindsFirst, FindsNone};

use crate::path::Path;
use crate::search::add_first;
use crate::tables::Tables;
use face_chart::Chart;
use std::alloc::AllocError;

/// Adds the numbers of a word that leads on to the end.
pub fn replay(tables: &Tables, word: &[u32], path: &mut Path) -> Result<(), AllocError>
    requires { (root : List (ℕ × ℕ)) × (us : List Triangle) × Keeps root [] path.old × Closes root word.now us }
    ensures placed { OnOk result (ArePlaced tables.now path.old → ArePlaced tables.now path.new) }
    ensures kept { OnOk result ((root : List (ℕ × ℕ)) (us : List Triangle) → Keeps root [] path.old → Closes root word.now us → (r : List ℕ) × Keeps root r path.new × (spelled r ≡ word.now)) }
{
    for c in word {
        path.close(tables, *c)?;
    }
    Ok(())
}

/// Goes on from a whole word to the next one of the face. The answer is whether there is one.
pub fn advance(chart: &Chart, tables: &Tables, path: &mut Path) -> Result<bool, AllocError>
    requires path { IsWhole chart.now path.old }
    requires tables { AreTables chart.now tables.now }
    requires placed { ArePlaced tables.now path.old }
    ensures placed { OnOk result (ArePlaced tables.now path.new) }
    ensures answer { IfOk result (λ found. MatchBool found (FindsFirst chart.now (IsBelow path.old.word.items) path.new) (FindsNone chart.now (IsBelow path.old.word.items))) }
{
    while !path.is_empty() {
        let c = path.back();
        let start = path.start();
        if add_first(chart, tables, start, Some(c), path)? {
            return Ok(true);
        }
    }
    Ok(false)
}
