//! The segments of one two-face.
ghost use Rattle.std.specs.Prelude.{◌≡◌, ◌+◌, ◌<◌, ◌≤◌, false, vec_len, IfOk, IfSome};
ghost use Rattle.shared_stream.specs.Segments.{IsSegmentOf};
ghost use Rattle.shared_stream.specs.Hands.{IsHanded, IsUpTo};

use crate::handed::Handed;
use crate::segment::Segment;
use face_chart::Chart;
use fine_stream::FaceTables;
use once_cell::race::OnceBox;
use std::alloc::{AllocError, Global};
use std::marker::Model;

/// Cells for some of the segments of a two-face.
#[derive(Drop)]
struct Block {
    cells: Vec<OnceBox<Segment>>,
    ghost covers: { vec_len cells ≡ 64 },
}

/// The segments before this one are made without tables of the unit triples, so that the first items come soon.
const TABLES_FROM: u32 = 16;

/// A two-face with cells for its segments with numbers up to 4,096, in blocks of 64 that are made when one of their
/// segments is asked for. Each cell is set once. All segments borrow the same tables for the search of their items.
#[derive(Drop)]
pub struct Cells {
    bare: FaceTables,
    full: OnceBox<FaceTables>,
    blocks: Vec<OnceBox<Block>>,
}

impl Model for Cells {
    ghost use Rattle.std.specs.Prelude.{◌≡◌, vec_len};
    ghost use Rattle.ntfe_model.specs.Charts.{Patch};

    ghost Value = { Patch };

    ghost view = { λ c. c.bare.patch };

    ghost invariant = { λ c. vec_len c.blocks ≡ 65 };
}

fn new_block(alloc: Global) -> Result<Box<Block>, AllocError> {
    let mut cells = Vec::with_capacity(alloc, 64)?;
    for _count in 0..64u32 {
        cells.push(OnceBox::new(alloc))?;
    }
    Ok(Box::new(alloc, Block { cells })?)
}

fn full_tables(alloc: Global, chart: &Chart) -> Result<Box<FaceTables>, AllocError> {
    let chart = chart.try_clone(alloc)?;
    Ok(Box::new(alloc, FaceTables::full(alloc, chart)?)?)
}

fn first_segment(alloc: Global, tables: &FaceTables) -> Result<Box<Segment>, AllocError> {
    Ok(Box::new(alloc, Segment::first(alloc, tables)?)?)
}

fn segment_after(
    alloc: Global,
    tables: &FaceTables,
    previous: &Segment,
) -> Result<Box<Segment>, AllocError>
    requires tables { tables.now.patch ≡ previous.now.patch }
    requires more { previous.now.ended ≡ false }
    requires few { previous.now.number < 4096 }
{
    Ok(Box::new(alloc, Segment::after(alloc, tables, previous)?)?)
}

impl Cells {
    /// The cells of a two-face, with no segment yet.
    pub fn new(alloc: Global, chart: Chart) -> Result<Cells, AllocError>
        ensures { IfOk result (λ c. c ≡ chart) }
    {
        let mut blocks = Vec::with_capacity(alloc, 65)?;
        for _count in 0..65u32 {
            blocks.push(OnceBox::new(alloc))?;
        }
        Ok(Cells {
            bare: FaceTables::bare(alloc, chart)?,
            full: OnceBox::new(alloc),
            blocks,
        })
    }

    /// The two-face.
    fn chart(&self) -> &Chart
        ensures { result.now ≡ self.now }
    {
        self.bare.chart()
    }

    /// The tables for the segment with this number. Where memory is short for the tables of the unit triples, or their
    /// cell holds those of another two-face, they are left out.
    fn tables(&self, alloc: Global, number: u32) -> &FaceTables
        ensures { result.now.patch ≡ self.now }
    {
        if number < TABLES_FROM {
            return &self.bare;
        }
        let chart = self.chart();
        match self.full.get_or_try_init(move || full_tables(alloc, chart)) {
            Ok(found) => {
                if !found.chart().same(chart) {
                    return &self.bare;
                }
                found
            }
            Err(_) => &self.bare,
        }
    }

    /// The cell for the segment with this number. Its block is made where it is missing.
    fn cell(&self, alloc: Global, number: u32) -> Result<&OnceBox<Segment>, AllocError>
        requires { number ≤ 4096 }
    {
        let block = self.blocks[(number / 64) as usize].get_or_try_init(move || new_block(alloc))?;
        Ok(&block.cells[(number % 64) as usize])
    }

    /// The segment with this number, where its cell holds it. Takes no memory.
    fn standing(&self, number: u32) -> Option<&Segment>
        requires { number ≤ 4096 }
        ensures { IfSome result (λ s. IsSegmentOf self.now number s.now) }
    {
        let block = self.blocks[(number / 64) as usize].get()?;
        let found = block.cells[(number % 64) as usize].get()?;
        if !found.is_of(self.chart(), number) {
            return None;
        }
        Some(found)
    }

    /// The last segment up to this number whose cell holds it. Takes no memory.
    fn nearest(&self, number: u32) -> Option<&Segment>
        requires { number ≤ 4096 }
        ensures { IfSome result (λ s. IsUpTo self.now number s.now) }
    {
        for back in 0..number + 1 {
            if let Some(found) = self.standing(number - back) {
                return Some(found);
            }
        }
        None
    }

    /// The first segment.
    fn first(&self, alloc: Global) -> Result<Handed<'_>, AllocError>
        ensures { IfOk result (IsHanded self.now 0) }
    {
        let tables = self.tables(alloc, 0);
        let cell = self.cell(alloc, 0)?;
        let found = cell.get_or_try_init(move || first_segment(alloc, tables))?;
        if found.is_of(self.chart(), 0) {
            return Ok(Handed::Lent(found));
        }
        Ok(Handed::Own(Segment::first(alloc, tables)?, found))
    }

    /// The segment that follows another.
    fn after(&self, alloc: Global, previous: &Segment) -> Result<Handed<'_>, AllocError>
        requires patch { previous.now.patch ≡ self.now }
        requires few { previous.now.number < 4096 }
        ensures { IfOk result (IsHanded self.now (previous.now.number + 1)) }
    {
        let number = previous.number() + 1;
        if previous.ended() {
            return Ok(Handed::Past { segments: number });
        }
        let tables = self.tables(alloc, number);
        let cell = self.cell(alloc, number)?;
        let found = cell.get_or_try_init(move || segment_after(alloc, tables, previous))?;
        if found.is_of(self.chart(), number) {
            return Ok(Handed::Lent(found));
        }
        Ok(Handed::Own(Segment::after(alloc, tables, previous)?, found))
    }

    /// What is handed out for the number after another one.
    fn following<'s>(
        &'s self,
        alloc: Global,
        number: u32,
        handed: Handed<'s>,
    ) -> Result<Handed<'s>, AllocError>
        requires few { number < 4096 }
        requires handed { IsHanded self.now number handed }
        ensures { IfOk result (IsHanded self.now (number + 1)) }
    {
        match handed {
            Handed::Lent(segment) => self.after(alloc, segment),
            Handed::Own(segment, _) => self.after(alloc, &segment),
            Handed::Past { segments } => Ok(Handed::Past { segments }),
        }
    }

    /// The nearest segment that is there, up to this number, with its number; else the first, which is made.
    fn begin(&self, alloc: Global, number: u32) -> Result<(u32, Handed<'_>), AllocError>
        requires { number ≤ 4096 }
        ensures { IfOk result (λ r. (r.0 ≤ number) × IsHanded self.now r.0 r.1) }
    {
        match self.nearest(number) {
            Some(segment) => Ok((segment.number(), Handed::Lent(segment))),
            None => Ok((0, self.first(alloc)?)),
        }
    }

    /// The segment with this number. Missing earlier ones are made on the way.
    pub fn segment(&self, alloc: Global, number: u32) -> Result<Handed<'_>, AllocError>
        requires { number ≤ 4096 }
        ensures { IfOk result (IsHanded self.now number) }
    {
        let (start, mut handed) = self.begin(alloc, number)?;
        for at in start..number {
            handed = self.following(alloc, at, handed)?;
        }
        Ok(handed)
    }
}
