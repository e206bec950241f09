//! The item after a position.
ghost use Rattle.std.specs.Prelude.{◌≡◌, ℕ, IfOk, OnOk, MatchBool, MatchOption};
ghost use Rattle.fine_stream.specs.Places.{ArePlaced, AreTables};
ghost use Rattle.fine_stream.specs.Cursors.{IsPlace, Follows, LeadsTo, ArePathsOf, ArePlacedIn, FindsFirst, FindsNone, IsFoundAfter};

use crate::path::Path;
use crate::position::Position;
use crate::search::add_first;
use crate::tables::Tables;
use crate::walk::{advance, replay};
use face_chart::Chart;
use ntfe_model::{List, Triangulation};
use std::alloc::{AllocError, Global};

/// An item, and the path that leads to it.
#[derive(Drop)]
pub struct Found {
    pub item: Triangulation,
    pub path: Path,
}

/// The path of the last item's word; before the first item the empty one.
fn path_of(
    alloc: Global,
    chart: &Chart,
    tables: &Tables,
    position: &Position,
) -> Result<Path, AllocError>
    requires { (n : ℕ) × IsPlace chart.now n position.now }
    ensures path { IfOk result (LeadsTo chart.now position.now) }
    ensures placed { IfOk result (ArePlaced tables.now) }
{
    match position {
        Position::After(word) => {
            let word = word.as_slice();
            let mut path = Path::new(alloc, chart.boundary(), word.len())?;
            replay(tables, word, &mut path)?;
            Ok(path)
        }
        Position::Start | Position::End => {
            let path = Path::new(alloc, chart.boundary(), 0)?;
            Ok(path)
        }
    }
}

/// Goes on from the path of the last item to that of the next one. The answer is whether there is one.
fn go_on(
    chart: &Chart,
    tables: &Tables,
    position: &Position,
    path: &mut Path,
) -> Result<bool, AllocError>
    requires path { LeadsTo chart.now position.now path.old }
    requires tables { AreTables chart.now tables.now }
    requires placed { ArePlaced tables.now path.old }
    ensures placed { OnOk result (ArePlaced tables.now path.new) }
    ensures answer { IfOk result (λ found. MatchBool found (FindsFirst chart.now (Follows position.now) path.new) (FindsNone chart.now (Follows position.now))) }
{
    // the steps are those of the boundary
    let _boundary = chart.boundary();
    match position {
        Position::Start => {
            let found = add_first(chart, tables, 0, None, path)?;
            Ok(found)
        }
        Position::After(_) => {
            let found = advance(chart, tables, path)?;
            Ok(found)
        }
        Position::End => Ok(false),
    }
}

/// The item whose word and triangles the path has.
fn item_of(alloc: Global, path: &Path) -> Result<Triangulation, AllocError>
    ensures word { IfOk result (λ x. x.word ≡ path.now.word.items) }
    ensures triangles { IfOk result (λ x. x.triangles ≡ path.now.triangles.items) }
{
    let word = Vec::from_slice(alloc, path.word.as_slice())?;
    let triangles = Vec::from_slice(alloc, path.triangles.as_slice())?;
    Ok(Triangulation {
        word: List::from_vec(word),
        triangles: List::from_vec(triangles),
    })
}

/// The item after a position. The path that leads to the position is made anew where it is not kept.
pub fn find(
    alloc: Global,
    chart: &Chart,
    tables: &Tables,
    position: &Position,
    kept: Option<Path>,
) -> Result<Option<Found>, AllocError>
    requires position { (n : ℕ) × IsPlace chart.now n position.now }
    requires kept { ArePathsOf chart.now position.now kept }
    requires tables { AreTables chart.now tables.now }
    requires placed { ArePlacedIn tables.now kept }
    ensures answer { IfOk result (IsFoundAfter chart.now position.now) }
    ensures placed { IfOk result (λ o. MatchOption o (Unit {0}) (λ f. ArePlaced tables.now f.path)) }
{
    // the points lie apart
    let _points = chart.points();
    let mut path = match kept {
        Some(path) => path,
        None => path_of(alloc, chart, tables, position)?,
    };
    if !go_on(chart, tables, position, &mut path)? {
        return Ok(None);
    }
    let item = item_of(alloc, &path)?;
    Ok(Some(Found { item, path }))
}
