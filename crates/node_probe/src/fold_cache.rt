//! What probes of a geometry's keys keep: the folds of its items, and heights.
ghost use Rattle.std.specs.Prelude.{◌≡◌, ◌<◌, ◌≤◌, ◌^◌, true, [], length, All, IfOk, OnOk, MatchBool};
ghost use Rattle.ntfe_model.specs.Choices.{IsSmallFold};
ghost use Rattle.ntfe_model.specs.Words.{IsItem};
ghost use Rattle.ntfe_model.specs.Charts.{patch_at};
ghost use Rattle.ntfe_model.specs.Books.{KeepsItem};
ghost use Rattle.ntfe_model.specs.Keys.{item_limit, IsKey};
ghost use Rattle.node_probe.specs.Heads.{KeepsHead, AreHeadRows};
ghost use Rattle.node_probe.specs.Lifted.{AreLifted};
ghost use Rattle.node_probe.specs.FoldCaches.{patches, AreShelved, HasNoOthers, HasFolds, AddsItem};

use crate::head::{HeadRows, add_rows};
use crate::heights::StemHeights;
use face_chart::Chart;
use fold_rows::folds;
use ntfe_model::{Book, Fold, Geometry, Key, List, Triangulation};
use std::alloc::{AllocError, Global};
use std::marker::Model;
use std::mem;

/// For how many items of a two-face folds are kept at a time. Whoever walks a two-face with more items makes the folds of one anew when it
/// comes again: so the memory does not grow with a list.
const PLACE_COUNT: u32 = 1024;

/// The folds of the item with this number.
#[derive(Drop)]
pub struct KeptFolds {
    pub number: u32,
    pub folds: List<Fold>,
}

/// Makes the place, with nothing at it where it is new.
fn make_place(kept: &mut Vec<Option<KeptFolds>>, place: usize) -> Result<(), AllocError>
    requires { place < 2 ^ 32 }
    ensures same { HasNoOthers kept.old.items kept.new.items }
    ensures place { OnOk result (place < length kept.new.items) }
{
    for _size in kept.len()..place + 1 {
        kept.push(None)?;
    }
    Ok(())
}

/// Keeps the folds of the item, and tells where.
fn keep_folds(
    alloc: Global,
    chart: &Chart,
    kept: &mut Vec<Option<KeptFolds>>,
    number: u32,
    item: &Triangulation,
) -> Result<usize, AllocError>
    requires item { IsItem chart.now number item.now }
    requires cached { AreShelved chart.now kept.old.items }
    ensures cached { AreShelved chart.now kept.new.items }
    ensures folds { IfOk result (λ place. HasFolds kept.new.items place number) }
{
    let place = (number % PLACE_COUNT) as usize;
    make_place(kept, place)?;
    if let Some(there) = &kept[place] {
        if there.number == number {
            return Ok(place);
        }
    }
    let folds = folds(alloc, chart, item)?;
    kept[place] = Some(KeptFolds { number, folds });
    Ok(place)
}

/// A two-face with the folds of items that were asked for. Contracts see the patch.
#[derive(Drop)]
pub struct FaceFolds {
    chart: Chart,
    kept: Vec<Option<KeptFolds>>,
}

impl Model for FaceFolds {
    ghost use Rattle.ntfe_model.specs.Charts.{Patch};
    ghost use Rattle.node_probe.specs.FoldCaches.{AreShelved};

    ghost Value = { Patch };

    ghost view = { λ s. s.chart };

    ghost invariant = { λ s. AreShelved s.chart s.kept.items };
}

impl FaceFolds {
    /// A two-face with no folds yet.
    pub fn new(alloc: Global, chart: Chart) -> FaceFolds
        ensures { result ≡ chart }
    {
        FaceFolds {
            chart,
            kept: Vec::new(alloc),
        }
    }

    /// Adds the folds of an item of the two-face, which has this number in the geometry, where they are kept. The answer is
    /// false, and nothing is added, where they are not.
    pub fn add_kept_folds(
        &self,
        face: u32,
        number: u32,
        rows: &mut HeadRows,
    ) -> Result<bool, AllocError>
        ensures rows { IfOk result (λ b. MatchBool b (AddsItem self.now number face rows.old rows.new) (rows.new ≡ rows.old)) }
    {
        let place = (number % PLACE_COUNT) as usize;
        if place >= self.kept.len() {
            return Ok(false);
        }
        let Some(there) = &self.kept[place] else {
            return Ok(false);
        };
        if there.number != number {
            return Ok(false);
        }
        add_rows(rows, face, there.folds.as_slice())?;
        Ok(true)
    }

    /// Adds the folds of an item of the two-face, which has this number in the geometry.
    pub fn add_folds(
        &mut self,
        alloc: Global,
        face: u32,
        number: u32,
        item: &Triangulation,
        rows: &mut HeadRows,
    ) -> Result<(), AllocError>
        requires { IsItem self.old number item.now }
        ensures patch { self.new ≡ self.old }
        ensures rows { OnOk result (AddsItem self.old number face rows.old rows.new) }
    {
        let place = keep_folds(alloc, &self.chart, &mut self.kept, number, item)?;
        let kept = self.kept[place].as_ref().unwrap();
        add_rows(rows, face, kept.folds.as_slice())?;
        Ok(())
    }
}

/// Adds the folds of an item that the book keeps. It is asked for the item only where no folds are kept.
fn add_kept<B: Book>(
    alloc: Global,
    cache: &mut FaceFolds,
    book: &B,
    face: u32,
    number: u32,
    rows: &mut HeadRows,
) -> Result<(), AllocError>
    requires face { face < length (B.shape book.now).faces }
    requires patch { cache.old ≡ patch_at (B.shape book.now) face }
    requires number { number ≤ item_limit (B.shape book.now) }
    requires kept { KeepsItem (B.keeps book.now) face number }
    ensures patch { cache.new ≡ cache.old }
    ensures rows { OnOk result (AddsItem cache.old number face rows.old rows.new) }
{
    if cache.add_kept_folds(face, number, rows)? {
        return Ok(());
    }
    let item = book.kept(face, number).unwrap();
    cache.add_folds(alloc, face, number, item, rows)
}

/// The folds of the head's items, which the book keeps, in the memory of rows that are empty.
fn cached_rows<B: Book>(
    alloc: Global,
    caches: &mut Vec<FaceFolds>,
    empty: HeadRows,
    key: &Key,
    book: &B,
) -> Result<HeadRows, AllocError>
    requires folds { empty.folds.items ≡ [] }
    requires faces { empty.faces.items ≡ [] }
    requires patches { caches.old.items ≡ patches (B.shape book.now) }
    requires key { IsKey (B.shape book.now) key.now }
    requires few { length key.now < 2 ^ 32 }
    requires kept { KeepsHead (B.keeps book.now) key.now }
    ensures patches { caches.new.items ≡ caches.old.items }
    ensures rows { IfOk result (λ h. AreHeadRows (B.shape book.now) key.now h.folds.items h.faces.items) }
{
    let numbers = key.0.as_slice();
    let mut rows = empty;
    for face in 0..numbers.len() {
        let cache = &mut caches[face];
        add_kept(alloc, cache, book, face as u32, numbers[face], &mut rows)?;
    }
    Ok(rows)
}

/// The charts of a geometry's two-faces, with the folds of their items that were asked for, the heights
/// that the solver found on the way to the last key, and memory for the folds of a head. Contracts see the
/// patches.
#[derive(Drop)]
pub struct FoldCache {
    faces: Vec<FaceFolds>,
    heights: StemHeights,
    spare: HeadRows,
}

impl Model for FoldCache {
    ghost use Rattle.std.specs.Prelude.{List};
    ghost use Rattle.ntfe_model.specs.Charts.{Patch};

    ghost Value = { List Patch };

    ghost view = { λ s. s.faces.items };
}

impl FoldCache {
    /// The cache of a geometry, with no folds and no heights yet.
    ///
    /// # Errors
    /// `AllocError` where memory is short.
    pub fn new(alloc: Global, geometry: &Geometry) -> Result<FoldCache, AllocError>
        ensures { IfOk result (λ s. s ≡ patches geometry.now) }
    {
        let count = geometry.faces().len();
        let mut faces = Vec::with_capacity(alloc, count)?;
        for face in 0..count {
            let chart = face_chart::chart(alloc, geometry, face as u32)?;
            faces.push(FaceFolds::new(alloc, chart))?;
        }
        Ok(FoldCache {
            faces,
            heights: StemHeights::new(alloc, count)?,
            spare: HeadRows::new(alloc),
        })
    }

    /// Keeps heights that lift the folds of the key.
    ///
    /// # Errors
    /// `AllocError` where memory is short.
    pub(crate) fn keep_heights(&mut self, key: &Key, heights: &[i64]) -> Result<(), AllocError>
        requires { 1 ≤ length key.now }
        ensures { self.new ≡ self.old }
    {
        self.heights.keep(key.0.as_slice().len() - 1, heights)
    }

    /// Whether the heights of the key's stem, one for each point, lift the folds of the key.
    ///
    /// # Errors
    /// `AllocError` where memory is short.
    pub(crate) fn lift(
        &mut self,
        key: &Key,
        folds: &[Fold],
        points: usize,
    ) -> Result<bool, AllocError>
        requires some { 1 ≤ length key.now }
        requires small { All IsSmallFold folds.now }
        ensures same { self.new ≡ self.old }
        ensures lifted { IfOk result (λ lifted. lifted ≡ true → AreLifted points folds.now) }
    {
        self.heights.lift(key.0.as_slice().len() - 1, folds, points)
    }

    /// The folds of the head's items, which the book keeps. They use the memory of rows that were taken back.
    pub(crate) fn head_rows<B: Book>(
        &mut self,
        alloc: Global,
        key: &Key,
        book: &B,
    ) -> Result<HeadRows, AllocError>
        requires patches { self.old ≡ patches (B.shape book.now) }
        requires key { IsKey (B.shape book.now) key.now }
        requires few { length key.now < 2 ^ 32 }
        requires kept { KeepsHead (B.keeps book.now) key.now }
        ensures patches { self.new ≡ self.old }
        ensures rows { IfOk result (λ h. AreHeadRows (B.shape book.now) key.now h.folds.items h.faces.items) }
    {
        let mut empty = mem::replace(&mut self.spare, HeadRows::new(alloc));
        empty.clear();
        cached_rows(alloc, &mut self.faces, empty, key, book)
    }

    /// Takes rows back, whose memory the next head's rows use.
    pub(crate) fn take_back(&mut self, rows: HeadRows)
        ensures { self.new ≡ self.old }
    {
        self.spare = rows;
    }
}
