//! The fine triangulations of a two-face, by tables that the stream borrows.
ghost use Rattle.std.specs.Prelude.{◌≡◌, ℕ, IfOk, OnErr};
ghost use Rattle.ntfe_model.specs.Words.{IsItem};

use crate::face_tables::FaceTables;
use crate::find::{Found, find};
use crate::path::Path;
use crate::position::Position;
use face_chart::Chart;
use ntfe_model::Triangulation;
use std::alloc::{AllocError, Global};
use std::marker::Model;

/// The fine triangulations of a two-face in order of words, each once, as a `Stream` gives them. It borrows its tables,
/// so a stream that begins behind an item has them at once.
#[derive(Drop)]
pub struct LentStream<'t> {
    alloc: Global,
    tables: &'t FaceTables,
    position: Position,
    /// The path of the last item, where it is kept: from there the search goes on.
    path: Option<Path>,
}

impl<'t> Model for LentStream<'t> {
    ghost use Rattle.fine_stream.specs.Cursors.{Cursor, IsStanding};

    ghost Value = { Cursor };

    ghost view = { λ s. record { patch = s.tables.now.patch; position = s.position } };

    ghost invariant = { λ s. IsStanding s.tables.now.patch s.position s.tables.now.tables s.path };
}

impl<'t> LentStream<'t> {
    ghost use Rattle.fine_stream.specs.Cursors.{IsCursor, IsNextItem};
    ghost use Rattle.fine_stream.specs.declared.position.Position.TheVariants.{Start, After};

    /// The stream that stands before the first item. Takes no memory.
    pub fn new(alloc: Global, tables: &'t FaceTables) -> LentStream<'t>
        ensures patch { result.patch ≡ tables.now.patch }
        ensures position { result.position ≡ Start }
    {
        // they are tables of the face
        let _tables = tables.tables();
        LentStream {
            alloc,
            tables,
            position: Position::Start,
            path: None,
        }
    }

    /// The stream that stands after an item.
    ///
    /// # Errors
    /// `AllocError` where memory is short.
    pub fn from_word(
        alloc: Global,
        tables: &'t FaceTables,
        last: &Triangulation,
    ) -> Result<LentStream<'t>, AllocError>
        requires { (n : ℕ) × IsItem tables.now.patch n last.now }
        ensures patch { IfOk result (λ s. s.patch ≡ tables.now.patch) }
        ensures position { IfOk result (λ s. s.position ≡ After last.now.word) }
    {
        // they are tables of the face
        let _tables = tables.tables();
        let word = last.word.try_clone(alloc)?;
        Ok(LentStream {
            alloc,
            tables,
            position: Position::After(word),
            path: None,
        })
    }

    /// The points of the two-face, and what is asked of them. Takes no memory.
    pub fn chart(&self) -> &Chart
        ensures patch { result.now ≡ self.now.patch }
        ensures cursor { IsCursor self.now }
    {
        self.tables.chart()
    }

    /// The next item, or none where there is no more.
    ///
    /// # Errors
    /// `AllocError` where memory is short. The stream stands where it stood.
    pub fn next(&mut self) -> Result<Option<Triangulation>, AllocError>
        ensures patch { self.new.patch ≡ self.old.patch }
        ensures answer { IfOk result (IsNextItem self.old self.new) }
        ensures unchanged { OnErr result (self.new ≡ self.old) }
    {
        let kept = self.path.take();
        let chart = self.tables.chart();
        let tables = self.tables.tables();
        match find(self.alloc, chart, tables, &self.position, kept)? {
            None => {
                self.position = Position::End;
                Ok(None)
            }
            Some(Found { item, path }) => {
                let word = item.word.try_clone(self.alloc)?;
                self.position = Position::After(word);
                self.path = Some(path);
                Ok(Some(item))
            }
        }
    }
}
