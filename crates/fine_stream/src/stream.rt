//! The fine triangulations of a two-face, one after the other.
ghost use Rattle.std.specs.Prelude.{◌≡◌, ℕ, IfOk, OnErr};
ghost use Rattle.ntfe_model.specs.Words.{IsItem};
ghost use Rattle.fine_stream.specs.Places.{AreTables};
ghost use Rattle.fine_stream.specs.Cursors.{ArePathsOf, ArePlacedIn};
ghost use Rattle.fine_stream.specs.declared.position.Position.{Position as AsPosition};

use crate::find::{Found, find};
use crate::path::Path;
use crate::position::Position;
use crate::tables::{Tables, empty_tables, full_tables};
use face_chart::Chart;
use ntfe_model::Triangulation;
use std::alloc::{AllocError, Global};
use std::marker::Model;

/// The tables are made after so many calls, when the items that came took about as long as the tables take.
const TURNS_BEFORE_TABLES: u32 = 4096;

/// Makes the tables where it is time for them. Then no path is kept, since it has no places there; and where
/// memory is short the search goes on without tables.
fn prepare(
    alloc: Global,
    chart: &Chart,
    turns: u32,
    tables: &mut Tables,
    kept: Option<Path>,
) -> Option<Path>
    requires tables { AreTables chart.now tables.old }
    requires placed { ArePlacedIn tables.old kept }
    ensures tables { AreTables chart.now tables.new }
    ensures placed { ArePlacedIn tables.new result }
    ensures kept { (position : AsPosition) → ArePathsOf chart.now position kept → ArePathsOf chart.now position result }
{
    if turns != TURNS_BEFORE_TABLES {
        return kept;
    }
    match full_tables(alloc, chart) {
        Ok(full) => {
            *tables = full;
            None
        }
        Err(_) => kept,
    }
}

/// The fine triangulations of a two-face in order of words, each once. After some thousands of items it makes tables
/// of the unit triples, for two-faces with at most 64 points and 768 unit triples; they take at most 900 kilobytes.
#[derive(Drop)]
pub struct Stream {
    alloc: Global,
    chart: Chart,
    position: Position,
    /// The path of the last item, where it is kept: from there the search goes on.
    path: Option<Path>,
    /// Empty at first, so that the first items come soon.
    tables: Tables,
    /// How many calls of `next` there were, or the greatest number.
    turns: u32,
}

impl Model for Stream {
    ghost use Rattle.fine_stream.specs.Cursors.{Cursor, IsStanding};

    ghost Value = { Cursor };

    ghost view = { λ s. record { patch = s.chart; position = s.position } };

    ghost invariant = { λ s. IsStanding s.chart s.position s.tables s.path };
}

impl Stream {
    ghost use Rattle.fine_stream.specs.Cursors.{IsCursor, IsNextItem};
    ghost use Rattle.fine_stream.specs.declared.position.Position.TheVariants.{Start, After};

    /// The stream that stands before the first item.
    ///
    /// # Errors
    /// `AllocError` where memory is short.
    pub fn new(alloc: Global, chart: Chart) -> Result<Stream, AllocError>
        ensures patch { IfOk result (λ s. s.patch ≡ chart) }
        ensures position { IfOk result (λ s. s.position ≡ Start) }
    {
        let tables = empty_tables(alloc, &chart)?;
        Ok(Stream {
            alloc,
            chart,
            position: Position::Start,
            path: None,
            tables,
            turns: 0,
        })
    }

    /// The stream that stands after an item.
    ///
    /// # Errors
    /// `AllocError` where memory is short.
    pub fn from_word(
        alloc: Global,
        chart: Chart,
        last: &Triangulation,
    ) -> Result<Stream, AllocError>
        requires { (n : ℕ) × IsItem chart n last.now }
        ensures patch { IfOk result (λ s. s.patch ≡ chart) }
        ensures position { IfOk result (λ s. s.position ≡ After last.now.word) }
    {
        let word = last.word.try_clone(alloc)?;
        let tables = empty_tables(alloc, &chart)?;
        Ok(Stream {
            alloc,
            chart,
            position: Position::After(word),
            path: None,
            tables,
            turns: 0,
        })
    }

    /// The points of the two-face, and what is asked of them. Takes no memory.
    pub fn chart(&self) -> &Chart
        ensures patch { result.now ≡ self.now.patch }
        ensures cursor { IsCursor self.now }
    {
        &self.chart
    }

    /// The next item, or none where there is no more.
    ///
    /// # Errors
    /// `AllocError` where memory is short. The stream stands where it stood.
    pub fn next(&mut self) -> Result<Option<Triangulation>, AllocError>
        ensures patch { self.new.patch ≡ self.old.patch }
        ensures answer { IfOk result (IsNextItem self.old self.new) }
        ensures unchanged { OnErr result (self.new ≡ self.old) }
    {
        let kept = self.path.take();
        let kept = prepare(self.alloc, &self.chart, self.turns, &mut self.tables, kept);
        self.turns = self.turns.saturating_add(1);
        match find(self.alloc, &self.chart, &self.tables, &self.position, kept)? {
            None => {
                self.position = Position::End;
                Ok(None)
            }
            Some(Found { item, path }) => {
                let word = item.word.try_clone(self.alloc)?;
                self.position = Position::After(word);
                self.path = Some(path);
                Ok(Some(item))
            }
        }
    }
}
