//! The stems of a key: where the run ends on its first rows.
ghost use Rattle.std.specs.Prelude.{◌≡◌, ◌+◌, ◌^◌, ◌<◌, ◌≤◌, take, length, slice_get, All, Some, IfOk, IfSome};
ghost use Rattle.std.specs.Bool.{OnTrue};
ghost use Rattle.strict_solver.specs.Starts.{AreFoldsOver};
ghost use Rattle.strict_solver.specs.Stems.{StemValue};
ghost use Rattle.strict_solver.specs.declared.stem.Pushed.TheVariants.{Feasible};
ghost use Rattle.strict_solver.specs.Pushes.{HasExtended};
ghost use Rattle.node_probe.specs.Stems.{HasGone, HasFollowed, IsLastAfter};

use crate::head::HeadRows;
use ntfe_model::Fold;
use std::alloc::{AllocError, Global};
use std::marker::Model;
use strict_solver::{Pushed, Stem};

/// So many stems may be kept beside one for each two-face.
const MOST_ASIDE: usize = 64;

/// The stems are to have no more numbers than these, 128 MB, where one for each two-face does not need them.
const MOST_NUMBERS: usize = 1 << 24;

/// How many stems are kept at most.
fn most_stems(columns: u32, faces: usize) -> usize
    requires { columns ≤ 400 }
{
    let columns = columns as usize;
    let many = MOST_NUMBERS / (columns * (columns + 2) + 1);
    let least = faces.saturating_add(2);
    least.max(many.min(least.saturating_add(MOST_ASIDE)))
}

/// Whether a stem is needed below the next one, where their numbers changed last at so many rows: where a two-face begins in
/// between, since another item of it goes on from there, and in the last two-face always.
fn is_needed(faces: &[u32], count: usize, from: usize, to: usize) -> bool {
    if from == 0 || from > to || to > faces.len() {
        return true;
    }
    let face = faces[to - 1];
    faces[from - 1] != face || face as usize + 1 >= count
}

/// Takes back rows behind so many from the highest stem of the path that allows it. That is the last one now.
fn take_back(stems: &mut Vec<Stem>, columns: u32, last: usize, count: usize) -> usize
    requires columns { All (λ v. v.columns ≡ columns) stems.old.items }
    requires within { last < length stems.old.items }
    ensures count { length stems.new.items ≡ length stems.old.items }
    ensures columns { All (λ v. v.columns ≡ columns) stems.new.items }
    ensures level { result ≤ last }
{
    let mut level = last + 1;
    while level > 0 {
        level -= 1;
        if stems[level].truncate(count) {
            return level;
        }
    }
    0
}

/// Brings those stems of the path to its front that are still needed, so that the others are free. The answer is the new place of
/// the last one.
fn thin(stems: &mut Vec<Stem>, columns: u32, last: usize, faces: &[u32], count: usize) -> usize
    requires columns { All (λ v. v.columns ≡ columns) stems.old.items }
    requires within { last < length stems.old.items }
    ensures count { length stems.new.items ≡ length stems.old.items }
    ensures columns { All (λ v. v.columns ≡ columns) stems.new.items }
    ensures last { result ≤ last }
{
    let mut kept = 0;
    for k in 0..last {
        if is_needed(faces, count, stems[k].settled(), stems[k + 1].settled()) {
            if kept < k {
                stems.swap(kept, k);
            }
            kept += 1;
        }
    }
    stems.swap(kept, last);
    kept
}

/// How many rows stand before those of the last of so many two-faces.
fn rows_before(faces: &[u32], count: usize) -> usize {
    for k in (0..faces.len()).rev() {
        if (faces[k] as usize) < count.saturating_sub(1) {
            return k + 1;
        }
    }
    0
}

/// The stem of the path that goes on with the rows where so many are common with those of the key before, its place, and how many
/// rows it stands for: none where other rows are common.
fn begin_after(
    stems: &mut Vec<Stem>,
    columns: u32,
    last: usize,
    rows: &HeadRows,
    count: usize,
    common: usize,
) -> (usize, Option<usize>)
    requires columns { All (λ v. v.columns ≡ columns) stems.old.items }
    requires within { last < length stems.old.items }
    ensures count { length stems.new.items ≡ length stems.old.items }
    ensures columns { All (λ v. v.columns ≡ columns) stems.new.items }
    ensures level { result.0 ≤ last }
    ensures rows { IfSome result.1 (λ n. n ≤ length rows.now.folds.items) }
    ensures known { IfSome result.1 (λ n. HasGone stems.new.items result.0 rows.now.folds.items n Feasible) }
{
    let level = take_back(stems, columns, last, common);
    let level = thin(stems, columns, level, &rows.faces, count);
    (level, stems[level].stands_for(&rows.folds))
}

/// The stem of the path that goes on with the rows, and how many of them it stands for. Where keys come in their order, only rows of
/// the last two-face differ from those of the key before: the others are not compared twice.
fn begin(
    stems: &mut Vec<Stem>,
    columns: u32,
    last: usize,
    rows: &HeadRows,
    count: usize,
) -> Result<(usize, usize), AllocError>
    requires columns { All (λ v. v.columns ≡ columns) stems.old.items }
    requires within { last < length stems.old.items }
    ensures count { length stems.new.items ≡ length stems.old.items }
    ensures columns { All (λ v. v.columns ≡ columns) stems.new.items }
    ensures level { IfOk result (λ r. r.0 ≤ last) }
    ensures rows { IfOk result (λ r. r.1 ≤ length rows.now.folds.items) }
    ensures known { IfOk result (λ r. HasGone stems.new.items r.0 rows.now.folds.items r.1 Feasible) }
{
    let likely = stems[last].common_from(&rows.folds, rows_before(&rows.faces, count));
    let (level, known) = begin_after(stems, columns, last, rows, count, likely);
    if let Some(known) = known {
        return Ok((level, known));
    }
    let common = stems[level].common(&rows.folds);
    let (level, known) = begin_after(stems, columns, level, rows, count, common);
    if let Some(known) = known {
        return Ok((level, known));
    }
    stems[0].start()?;
    Ok((0, 0))
}

/// Makes a stem above this level where there is none, unless there are enough. The answer is whether there is one.
fn make_room(
    stems: &mut Vec<Stem>,
    alloc: Global,
    columns: u32,
    level: usize,
    most: usize,
) -> Result<bool, AllocError>
    requires few { columns ≤ 400 }
    requires columns { All (λ v. v.columns ≡ columns) stems.old.items }
    requires within { level < length stems.old.items }
    ensures columns { All (λ v. v.columns ≡ columns) stems.new.items }
    ensures within { level < length stems.new.items }
    ensures same { slice_get stems.new.items level ≡ slice_get stems.old.items level }
    ensures room { IfOk result (λ b. OnTrue b (level + 1 < length stems.new.items)) }
{
    if level + 1 < stems.len() {
        return Ok(true);
    }
    if level + 1 >= most {
        return Ok(false);
    }
    let stem = Stem::new(alloc, columns)?;
    stems.push(stem)?;
    Ok(true)
}

/// Lets the stem at this level go on with one more row.
fn push_at(
    stems: &mut Vec<Stem>,
    columns: u32,
    level: usize,
    folds: &[Fold],
    row: usize,
) -> Result<Pushed, AllocError>
    requires columns { All (λ v. v.columns ≡ columns) stems.old.items }
    requires known { HasGone stems.old.items level folds.now row Feasible }
    requires row { row < length folds.now }
    requires folds { AreFoldsOver columns folds.now }
    ensures count { length stems.new.items ≡ length stems.old.items }
    ensures columns { All (λ v. v.columns ≡ columns) stems.new.items }
    ensures gone { IfOk result (λ p. HasGone stems.new.items level folds.now (row + 1) p) }
{
    stems[level].extend(folds, row, row + 1)
}

/// Lets the stem go on with one more row. Where that changes its numbers, the spare one stands where it did, and the second
/// answer is true.
fn push_aside(
    stem: &mut Stem,
    spare: &mut Stem,
    folds: &[Fold],
    row: usize,
) -> Result<(Pushed, bool), AllocError>
    requires same { spare.old.columns ≡ stem.old.columns }
    requires known { stem.old.folds ≡ Some (take row folds.now) }
    requires row { row < length folds.now }
    requires folds { AreFoldsOver stem.old.columns folds.now }
    ensures columns { stem.new.columns ≡ stem.old.columns }
    ensures spare { spare.new.columns ≡ stem.old.columns }
    ensures extended { IfOk result (λ r. HasExtended stem.new folds.now (row + 1) r.0) }
{
    stem.push_aside(&folds[row], spare)
}

/// Lets the stem at this level go on with one more row. Where that changes its numbers, the stem above stands where it did, and
/// the second answer is true.
fn push_beside(
    stems: &mut Vec<Stem>,
    columns: u32,
    level: usize,
    folds: &[Fold],
    row: usize,
) -> Result<(Pushed, bool), AllocError>
    requires columns { All (λ v. v.columns ≡ columns) stems.old.items }
    requires within { level + 1 < length stems.old.items }
    requires known { HasGone stems.old.items level folds.now row Feasible }
    requires row { row < length folds.now }
    requires folds { AreFoldsOver columns folds.now }
    ensures count { length stems.new.items ≡ length stems.old.items }
    ensures columns { All (λ v. v.columns ≡ columns) stems.new.items }
    ensures gone { IfOk result (λ r. HasGone stems.new.items level folds.now (row + 1) r.0) }
{
    let (path, free) = stems.split_at_mut(level + 1);
    push_aside(&mut path[level], &mut free[0], folds, row)
}

/// The stems of the key that was probed last, a path: each stands for more of its first rows than the one below it, and the last
/// one for all of them. Those above are free. Contracts see the number of heights and the last stem.
#[derive(Drop)]
pub struct Stems {
    alloc: Global,
    columns: u32,
    /// So many stems are kept at most.
    most: usize,
    stems: Vec<Stem>,
    last: usize,
}

impl Model for Stems {
    ghost use Rattle.std.specs.Prelude.{slice_get};
    ghost use Rattle.node_probe.specs.Stems.{StemsValue, AreStems};

    ghost Value = { StemsValue };

    ghost view = { λ s. record { columns = s.columns; last = slice_get s.stems.items s.last } };

    ghost invariant = { λ s. AreStems s.columns s.last s.stems.items };
}

impl Stems {
    ghost use Rattle.std.specs.Prelude.{List, ℤ, map, None};
    ghost use Rattle.ntfe_model.specs.declared.nogood.Fold.{Fold as FoldOf};
    ghost use Rattle.ntfe_model.specs.Solver.{fold_row, IsFeasible};

    /// Stems over so many heights, for keys of so many two-faces.
    ///
    /// # Errors
    /// `AllocError` where memory is short.
    pub fn new(alloc: Global, columns: u32, faces: usize) -> Result<Stems, AllocError>
        requires { columns ≤ 400 }
        ensures { IfOk result (λ s. s.columns ≡ columns) }
    {
        let first = Stem::new(alloc, columns)?;
        let mut stems = Vec::new(alloc);
        stems.push(first)?;
        Ok(Stems {
            alloc,
            columns,
            most: most_stems(columns, faces),
            stems,
            last: 0,
        })
    }

    /// Lets the last stem go on with one more row. Where that changes its numbers, and there is room, one that stands where it did
    /// stays below.
    fn push(&mut self, folds: &[Fold], row: usize) -> Result<Pushed, AllocError>
        requires known { IsLastAfter self.old folds.now row Feasible }
        requires row { row < length folds.now }
        requires folds { AreFoldsOver self.old.columns folds.now }
        ensures columns { self.new.columns ≡ self.old.columns }
        ensures gone { IfOk result (λ p. IsLastAfter self.new folds.now (row + 1) p) }
    {
        let level = self.last;
        if !make_room(&mut self.stems, self.alloc, self.columns, level, self.most)? {
            return push_at(&mut self.stems, self.columns, level, folds, row);
        }
        let (pushed, is_aside) = push_beside(&mut self.stems, self.columns, level, folds, row)?;
        if is_aside {
            self.stems.swap(level, level + 1);
            self.last = level + 1;
        }
        Ok(pushed)
    }

    /// Lets the last stem go on with the rows behind so many, until they cancel or a number does not fit.
    fn extend(&mut self, folds: &[Fold], from: usize) -> Result<Pushed, AllocError>
        requires known { IsLastAfter self.old folds.now from Feasible }
        requires from { from ≤ length folds.now }
        requires folds { AreFoldsOver self.old.columns folds.now }
        ensures columns { self.new.columns ≡ self.old.columns }
        ensures followed { IfOk result (λ p. HasFollowed self.new folds.now p) }
    {
        for row in from..folds.len() {
            match self.push(folds, row)? {
                Pushed::Feasible => {}
                Pushed::Infeasible => return Ok(Pushed::Infeasible),
                Pushed::Unknown => return Ok(Pushed::Unknown),
            }
        }
        Ok(Pushed::Feasible)
    }

    /// Lets the run go on from the key before, as far as the rows are the same. The last stem stands for the rows then, or has
    /// multipliers with which they cancel, or nothing is known.
    ///
    /// # Errors
    /// `AllocError` where memory is short.
    pub fn follow(&mut self, numbers: &[u32], rows: &HeadRows) -> Result<Pushed, AllocError>
        requires folds { AreFoldsOver self.old.columns rows.now.folds.items }
        ensures columns { self.new.columns ≡ self.old.columns }
        ensures followed { IfOk result (λ p. HasFollowed self.new rows.now.folds.items p) }
    {
        let (level, from) = begin(
            &mut self.stems,
            self.columns,
            self.last,
            rows,
            numbers.len(),
        )?;
        self.last = level;
        self.extend(&rows.folds, from)
    }

    /// The multipliers with which the last stem found that rows cancel.
    pub fn multipliers(&self) -> &[(u32, i64)]
        requires { (v : StemValue) × (self.now.last ≡ Some v) }
        ensures { (v : StemValue) → self.now.last ≡ Some v → result.now ≡ v.multipliers }
    {
        self.stems[self.last].multipliers()
    }

    /// A law: the rows of the last stem have heights. The call does nothing: its contract is the law.
    pub fn has_heights(&self)
        requires { (v : StemValue) × (fs : List FoldOf) × (self.now.last ≡ Some v) × (v.folds ≡ Some fs) }
        ensures { (v : StemValue) (fs : List FoldOf) → self.now.last ≡ Some v → v.folds ≡ Some fs → (heights : List ℤ) × IsFeasible self.now.columns (map (fold_row self.now.columns) fs) None heights }
    {
        self.stems[self.last].has_heights();
    }

    /// Writes the heights of the stated run on the rows of the last stem.
    pub fn write_heights(&mut self, heights: &mut [i64])
        requires known { (v : StemValue) × (fs : List FoldOf) × (self.old.last ≡ Some v) × (v.folds ≡ Some fs) }
        requires count { length heights.old ≡ self.old.columns }
        ensures columns { self.new.columns ≡ self.old.columns }
        ensures count { length heights.new ≡ self.old.columns }
        ensures heights { (v : StemValue) (fs : List FoldOf) → self.old.last ≡ Some v → v.folds ≡ Some fs → IsFeasible self.old.columns (map (fold_row self.old.columns) fs) None heights.new }
    {
        self.stems[self.last].write_heights(heights);
    }
}
