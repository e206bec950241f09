//! The scaling: one number makes all heights whole.
ghost use Rattle.std.specs.Prelude.{◌≡◌, ℕ, ◌+◌, ◌*◌, ◌^◌, ◌<◌, ◌≤◌, pos, ◌<ℤ◌, ◌*ℤ◌, length, map, unsigned_abs};
ghost use Rattle.std.specs.Int.Signed.{quot_z};
ghost use Rattle.strict_solver.specs.Scales.{common_multiple, reduced_denominator};

use crate::grid::Grid;
use crate::place::Place;
use ntfe_nums::{gcd, narrow};

/// The least common multiple of a scale and the reduced denominator of c / d.
fn next_scale(scale: u64, d: &i64, c: &i64) -> u128
    requires scale { 0 < scale }
    requires scaled { scale < 2 ^ 62 }
    requires d { pos 0 <ℤ d.now }
    requires small { unsigned_abs d.now < 2 ^ 62 }
    requires fits { unsigned_abs c.now < 2 ^ 62 }
    ensures value { result ≡ common_multiple scale (reduced_denominator (unsigned_abs d.now) (unsigned_abs c.now)) }
    ensures size { result < 2 ^ 124 }
    ensures positive { 0 < result }
{
    let common = gcd(u128::from(d.unsigned_abs()), u128::from(c.unsigned_abs()));
    let denominator = u128::from(d.unsigned_abs()) / common;
    let shared = gcd(u128::from(scale), denominator);
    u128::from(scale) * (denominator / shared)
}

/// A height times its scale.
fn scaled(scale: u64, d: &i64, c: &i64) -> i128
    requires scale { scale < 2 ^ 62 }
    requires d { pos 0 <ℤ d.now }
    requires small { unsigned_abs d.now < 2 ^ 62 }
    requires fits { unsigned_abs c.now < 2 ^ 62 }
    ensures value { result ≡ quot_z (pos scale *ℤ c.now) d.now }
    ensures size { unsigned_abs result < 2 ^ 126 }
{
    let product = i128::from(scale) * i128::from(*c);
    product / i128::from(*d)
}

impl Grid {
    ghost use Rattle.std.specs.Prelude.{◌++◌, ◌-◌, vec_capacity, slice_index_or, MatchOption, MatchResult, Some, None};
    ghost use Rattle.ntfe_model.specs.Solver.{Line, first_wide, scaling_numbers, multiplier_at, multipliers_of};
    ghost use Rattle.strict_solver.specs.Grids.{lines_of, IsGrid};
    ghost use Rattle.strict_solver.specs.Scales.{scale_next, scale_to, scales_of, height_by, heights_by};

    /// The scale with one more height.
    fn scale_after(&self, k: usize, scale: u64) -> u128
        requires grid { IsGrid 62 self.now }
        requires within { k < self.now.columns }
        requires some { 0 < scale }
        requires small { scale < 2 ^ 62 }
        ensures value { result ≡ scale_next scale (slice_index_or (lines_of self.now) k None) }
        ensures size { result < 2 ^ 124 }
        ensures positive { 0 < result }
    {
        match self.places[k] {
            Place::Row(r) => next_scale(scale, self.cell(r, 0), self.cell(r, 1)),
            Place::Column(_) => u128::from(scale),
        }
    }

    /// A height times the scale.
    fn height_at(&self, k: usize, scale: u64) -> i128
        requires grid { IsGrid 62 self.now }
        requires within { k < self.now.columns }
        requires small { scale < 2 ^ 62 }
        ensures value { result ≡ height_by scale (slice_index_or (lines_of self.now) k None) }
        ensures size { unsigned_abs result < 2 ^ 126 }
    {
        match self.places[k] {
            Place::Row(r) => scaled(scale, self.cell(r, 0), self.cell(r, 1)),
            Place::Column(_) => 0,
        }
    }

    /// The least number that makes the heights whole, or the first wide one on the way.
    fn common_scale(&self, width: u8) -> Result<u64, i128>
        requires low { 1 ≤ width }
        requires high { width ≤ 62 }
        requires grid { IsGrid width self.now }
        ensures { MatchResult result
            (λ m. (m ≡ scale_to (lines_of self.now) self.now.columns) × ((k : ℕ) → k ≤ self.now.columns → scale_to (lines_of self.now) k < 2 ^ width))
            (λ z. first_wide width (map pos (scales_of self.now.columns (lines_of self.now))) ≡ Some z) }
    {
        let mut scale = 1u64;
        for k in 0..self.columns {
            let next = self.scale_after(k, scale);
            if next >> width != 0 {
                return Err(next as i128);
            }
            scale = next as u64;
        }
        Ok(scale)
    }

    /// The heights times a scale that makes them whole, or the first wide one.
    fn scale_heights(&self, scale: u64, width: u8, heights: &mut [i64]) -> Option<i128>
        requires low { 1 ≤ width }
        requires high { width ≤ 62 }
        requires grid { IsGrid width self.now }
        requires small { scale < 2 ^ width }
        requires count { length heights.old ≡ self.now.columns }
        ensures { MatchOption result
            ((heights.new ≡ heights_by self.now.columns scale (lines_of self.now)) × (first_wide width heights.new ≡ None))
            (λ z. first_wide width (heights_by self.now.columns scale (lines_of self.now)) ≡ Some z) }
    {
        for k in 0..self.columns {
            let height = self.height_at(k, scale);
            let Some(number) = narrow(height, width) else {
                return Some(height);
            };
            heights[k] = number;
        }
        None
    }

    /// Writes the whole heights. The answer is the first wide number of the scaling.
    pub fn write_heights(&self, width: u8, heights: &mut [i64]) -> Option<i128>
        requires low { 1 ≤ width }
        requires high { width ≤ 62 }
        requires grid { IsGrid width self.now }
        requires count { length heights.old ≡ self.now.columns }
        ensures { let lines = lines_of self.now in let whole = heights_by self.now.columns (scale_to lines self.now.columns) lines in MatchOption result
            ((heights.new ≡ whole) × (first_wide width (scaling_numbers (scales_of self.now.columns lines) whole) ≡ None))
            (λ z. first_wide width (scaling_numbers (scales_of self.now.columns lines) whole) ≡ Some z) }
    {
        match self.common_scale(width) {
            Ok(scale) => self.scale_heights(scale, width, heights),
            Err(number) => Some(number),
        }
    }

    /// The multiplier of a row in the row of a slack.
    fn multiplier(&self, slack: usize, row: usize) -> i64
        requires grid { IsGrid 62 self.now }
        requires slack { slack < length self.now.places.items }
        requires row { self.now.columns + row < length self.now.places.items }
        ensures value { (line : Line) → slice_index_or (lines_of self.now) slack None ≡ Some line → result ≡ multiplier_at self.now.columns slack line row }
        ensures size { unsigned_abs result < 2 ^ 62 }
    {
        let Place::Row(r) = self.places[slack] else {
            return 0;
        };
        if self.columns + row == slack {
            return *self.cell(r, 0);
        }
        match self.places[self.columns + row] {
            Place::Column(p) => self.cell(r, p).abs(),
            Place::Row(_) => 0,
        }
    }

    /// Writes the multipliers that are not 0, rows rising.
    pub fn write_multipliers(&self, slack: usize, multipliers: &mut Vec<(u32, i64)>)
        requires grid { IsGrid 62 self.now }
        requires slack { slack < length self.now.places.items }
        requires room { length self.now.places.items ≤ self.now.columns + vec_capacity multipliers.old }
        requires few { length self.now.places.items < self.now.columns + 2 ^ 32 }
        ensures capacity { vec_capacity multipliers.new ≡ vec_capacity multipliers.old }
        ensures value { (line : Line) → slice_index_or (lines_of self.now) slack None ≡ Some line
            → multipliers.new.items ≡ multipliers_of self.now.columns (length self.now.places.items - self.now.columns) slack line }
    {
        multipliers.clear();
        for row in 0..self.places.len() - self.columns {
            let times = self.multiplier(slack, row);
            if times > 0 {
                multipliers.push_reserved((row as u32, times));
            }
        }
    }
}
