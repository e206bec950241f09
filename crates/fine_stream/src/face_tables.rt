//! A two-face with its tables, for streams that borrow them.
ghost use Rattle.std.specs.Prelude.{◌≡◌, IfOk};
ghost use Rattle.fine_stream.specs.Places.{AreTables};

use crate::tables::{Tables, empty_tables, full_tables};
use face_chart::Chart;
use std::alloc::{AllocError, Global};
use std::marker::Model;

/// A two-face with tables for the search of its items. They are made once, and any number of streams borrow them.
#[derive(Drop)]
pub struct FaceTables {
    chart: Chart,
    tables: Tables,
}

impl Model for FaceTables {
    ghost use Rattle.fine_stream.specs.Places.{TabledFace, AreTables};

    ghost Value = { TabledFace };

    ghost view = { λ t. record { patch = t.chart; tables = t.tables } };

    ghost invariant = { λ t. AreTables t.chart t.tables };
}

impl FaceTables {
    /// The two-face with nothing in its tables but the points, so that the first items come soon.
    ///
    /// # Errors
    /// `AllocError` where memory is short.
    pub fn bare(alloc: Global, chart: Chart) -> Result<FaceTables, AllocError>
        ensures { IfOk result (λ t. t.patch ≡ chart) }
    {
        let tables = empty_tables(alloc, &chart)?;
        Ok(FaceTables { chart, tables })
    }

    /// The two-face with its unit triples in its tables, where it has at most 64 points and 768 of them. They take at
    /// most 900 kilobytes, and are worth it for some thousands of items.
    ///
    /// # Errors
    /// `AllocError` where memory is short.
    pub fn full(alloc: Global, chart: Chart) -> Result<FaceTables, AllocError>
        ensures { IfOk result (λ t. t.patch ≡ chart) }
    {
        let tables = full_tables(alloc, &chart)?;
        Ok(FaceTables { chart, tables })
    }

    /// The two-face. Takes no memory.
    pub fn chart(&self) -> &Chart
        ensures { result.now ≡ self.now.patch }
    {
        &self.chart
    }

    /// The tables.
    pub(crate) fn tables(&self) -> &Tables
        ensures value { result.now ≡ self.now.tables }
        ensures tables { AreTables self.now.patch result.now }
    {
        &self.tables
    }
}
