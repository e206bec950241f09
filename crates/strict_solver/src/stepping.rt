//! The steps of a basis: one more row, and its moves.
ghost use Rattle.std.specs.Prelude.{◌≡◌, ◌≢◌, ℕ, ◌+◌, ◌*◌, ◌^◌, ◌<◌, ◌≤◌, pos, ◌-◌, ◌<ℤ◌, ◌≤ℤ◌, unsigned_abs, List, [], ◌∷◌, ◌++◌, length, slice_get, MatchOption, MatchBool, IfOk, OnOk, Some};
ghost use Rattle.std.specs.Bool.{OnTrue};
ghost use Rattle.ntfe_model.specs.declared.nogood.Fold.{Fold as FoldOf};
ghost use Rattle.strict_solver.specs.declared.place.Place.TheVariants.{Row, Column};
ghost use Rattle.strict_solver.specs.declared.stepping.Effect.TheVariants.{Stays};
ghost use Rattle.strict_solver.specs.Rows.{number, AreNarrow, PlacesWithin};
ghost use Rattle.strict_solver.specs.Starts.{IsFoldOver, AreFoldsOver};
ghost use Rattle.strict_solver.specs.Standing.{fold_sum, cell_at, constant_of, IsSized, HasSlackRow, HasNoneBelow, IsFirstBelow, LoadsNothing, IsFirstHeight, HasNoneEntering, IsFirstToEnter, HasSameSizes, HasOtherLine, HasOneMore, IsExchanged, StandsLoaded, StandsAtEnd};
ghost use Rattle.strict_solver.specs.Endings.{HasEndedAs, StandsBefore, HasEffect, HasStayed};

use crate::basis::{Basis, fold_of, put_in_rows, signed, write_fold_of_rows};
use crate::divisor::{Divisor, NUMBER_LIMIT};
use crate::place::Place;
use ntfe_model::Fold;
use std::alloc::AllocError;

/// After so many moves for one row a basis gives up. None is known to need a thousand.
const MOST_MOVES: u32 = 1 << 20;

/// How the run on the rows ends.
#[derive(Clone, Copy, Drop)]
pub enum Ending {
    /// No slack is negative.
    Feasible,
    /// The slack of this row, from 0, is negative, and none can enter in its place.
    Infeasible(usize),
    /// Not known: a number is not whole or too large, or the moves are too many.
    Unknown,
}

/// What one more row does to a basis that stands at the end of a run.
#[derive(Clone, Copy, Drop)]
pub enum Effect {
    /// It loads this height, the first that it can.
    Loads(usize),
    /// It has no height to load, and its slack is negative.
    Moves,
    /// It has no height to load, and its slack is not negative: no number changes.
    Stays,
}

impl Effect {
    /// Whether a number of the basis changes.
    pub fn changes(self) -> bool
        ensures { MatchBool result (Unit {0}) (self ≡ Stays) }
    {
        match self {
            Effect::Loads(_) | Effect::Moves => true,
            Effect::Stays => false,
        }
    }
}

impl Basis {
    /// Keeps the row of a fold's slack. The answer is false where a number reaches 2^30.
    fn write_line(&mut self, fold: &Fold) -> bool
        requires sized { IsSized self.old }
        requires fold { IsFoldOver self.old.columns fold.now }
        ensures others { HasOtherLine self.old self.new }
        ensures answer { OnTrue result (HasSlackRow self.new fold.now) }
    {
        if !write_fold_of_rows(&self.cells, fold, self.columns, &mut self.line) {
            return false;
        }
        let constant = self.line[1] - self.denominator;
        if constant.unsigned_abs() >= NUMBER_LIMIT {
            return false;
        }
        self.line[0] = self.denominator;
        self.line[1] = constant;
        true
    }

    /// The first slack that is not basic and has a positive coefficient in the kept line.
    fn first_to_enter(&self) -> Option<usize>
        requires sized { IsSized self.now }
        requires within { PlacesWithin (self.now.columns + 2) self.now.places.items }
        ensures { MatchOption result (HasNoneEntering self.now) (IsFirstToEnter self.now) }
    {
        for y in self.columns..self.places.len() {
            if let Place::Column(p) = self.places[y] {
                if self.line[p] > 0 {
                    return Some(y);
                }
            }
        }
        None
    }

    /// The number at a place of a height's row.
    #[inline]
    fn cell(&self, point: u32, place: usize) -> i64
        requires sized { IsSized self.now }
        requires from { 1 ≤ point }
        requires within { point ≤ self.now.columns }
        requires place { place < self.now.columns + 2 }
        ensures value { result ≡ cell_at self.now.columns self.now.cells.items place (point - 1) }
        ensures size { unsigned_abs result < 2 ^ 30 }
    {
        self.cells[(point as usize - 1) * (self.columns + 2) + place]
    }

    /// The fold of the heights' rows at a place.
    #[inline]
    fn fold_at(&self, fold: &Fold, place: usize) -> i64
        requires sized { IsSized self.now }
        requires fold { IsFoldOver self.now.columns fold.now }
        requires place { place < self.now.columns + 2 }
        ensures value { result ≡ fold_sum (cell_at self.now.columns self.now.cells.items place) fold.now }
        ensures size { unsigned_abs result < 2 ^ 62 }
    {
        fold_of(
            fold,
            self.cell(fold.a, place),
            self.cell(fold.b, place),
            self.cell(fold.c, place),
            self.cell(fold.d, place),
        )
    }

    /// The first height that is not basic and that the fold has. The row of the fold's slack is not written for it.
    fn first_height(&self, fold: &Fold) -> Option<usize>
        requires sized { IsSized self.now }
        requires fold { IsFoldOver self.now.columns fold.now }
        requires enough { self.now.columns ≤ length self.now.places.items }
        requires within { PlacesWithin (self.now.columns + 2) self.now.places.items }
        ensures { MatchOption result (LoadsNothing self.now fold.now) (IsFirstHeight self.now fold.now) }
    {
        for k in 0..self.columns {
            if let Place::Column(p) = self.places[k] {
                if self.fold_at(fold, p) != 0 {
                    return Some(k);
                }
            }
        }
        None
    }

    /// Whether the slack of the fold is negative.
    fn is_below(&self, fold: &Fold) -> bool
        requires sized { IsSized self.now }
        requires fold { IsFoldOver self.now.columns fold.now }
        ensures { MatchBool result (constant_of self.now fold.now <ℤ pos 0) (pos 0 ≤ℤ constant_of self.now fold.now) }
    {
        self.fold_at(fold, 1) < self.denominator
    }

    /// The first of the folds whose slack is negative.
    fn first_below(&self, folds: &[Fold]) -> Option<usize>
        requires sized { IsSized self.now }
        requires folds { AreFoldsOver self.now.columns folds.now }
        ensures { MatchOption result (HasNoneBelow self.now folds.now) (IsFirstBelow self.now folds.now) }
    {
        for j in 0..folds.len() {
            if self.is_below(&folds[j]) {
                return Some(j);
            }
        }
        None
    }

    /// Exchanges the variable of the kept line and one that is not basic. The answer is false where a number is not whole or
    /// reaches 2^30.
    fn exchange(&mut self, leaving: usize, entering: usize) -> bool
        requires sized { IsSized self.old }
        requires line { AreNarrow 30 self.old.line.items }
        requires first { (k : ℕ) → k < self.old.columns → cell_at self.old.columns self.old.cells.items 0 k ≡ self.old.denominator }
        requires leaves { (r : ℕ) × (slice_get self.old.places.items leaving ≡ Some (Row r)) }
        requires enters { (p : ℕ) × (slice_get self.old.places.items entering ≡ Some (Column p)) × (2 ≤ p) × (p < self.old.columns + 2) × (number self.old.line.items p ≢ pos 0) }
        ensures sizes { HasSameSizes self.old self.new }
        ensures answer { OnTrue result (IsExchanged self.old self.new leaving entering) }
    {
        let Place::Row(r) = self.places[leaving] else {
            return false;
        };
        let Place::Column(p) = self.places[entering] else {
            return false;
        };
        let divisor = Divisor::new(self.denominator);
        if !put_in_rows(&mut self.cells, &self.line, p, &divisor, self.columns) {
            return false;
        }
        self.denominator = signed(self.line[p], self.line[p]);
        self.places[leaving] = Place::Column(p);
        self.places[entering] = Place::Row(r);
        true
    }

    /// Goes on moving until no slack of the folds is negative.
    fn settle(&mut self, folds: &[Fold]) -> Ending
        requires sized { IsSized self.old }
        requires folds { AreFoldsOver self.old.columns folds.now }
        requires loaded { StandsLoaded self.old folds.now }
        ensures sizes { HasSameSizes self.old self.new }
        ensures answer { HasEndedAs self.new folds.now result }
    {
        for _move in 0..MOST_MOVES {
            let Some(row) = self.first_below(folds) else {
                return Ending::Feasible;
            };
            if !self.write_line(&folds[row]) {
                return Ending::Unknown;
            }
            let Some(entering) = self.first_to_enter() else {
                return Ending::Infeasible(row);
            };
            if !self.exchange(self.columns + row, entering) {
                return Ending::Unknown;
            }
        }
        Ending::Unknown
    }

    /// Loads the first height of one more row, whose slack leaves for it: that is the end of the run.
    fn load(&mut self, fold: &Fold, height: usize) -> Result<Ending, AllocError>
        requires sized { IsSized self.old }
        requires fold { IsFoldOver self.old.columns fold.now }
        requires stands { (fs : List FoldOf) × StandsAtEnd self.old fs }
        requires first { IsFirstHeight self.old fold.now height }
        ensures sizes { HasSameSizes self.old self.new }
        ensures answer { IfOk result (λ e. (fs : List FoldOf) → StandsAtEnd self.old fs → HasEndedAs self.new (fs ++ fold.now ∷ []) e) }
    {
        if !self.write_line(fold) {
            return Ok(Ending::Unknown);
        }
        let slack = self.places.len();
        self.places.push(Place::Row(0))?;
        if self.exchange(slack, height) {
            Ok(Ending::Feasible)
        } else {
            Ok(Ending::Unknown)
        }
    }

    /// What one more row does.
    pub fn effect(&self, fold: &Fold) -> Effect
        requires sized { IsSized self.now }
        requires fold { IsFoldOver self.now.columns fold.now }
        requires enough { self.now.columns ≤ length self.now.places.items }
        requires within { PlacesWithin (self.now.columns + 2) self.now.places.items }
        ensures { HasEffect self.now fold.now result }
    {
        if let Some(height) = self.first_height(fold) {
            return Effect::Loads(height);
        }
        if self.is_below(fold) {
            Effect::Moves
        } else {
            Effect::Stays
        }
    }

    /// Goes on with one more row, the last of the folds, which has no height to load: it moves until no slack is negative.
    fn move_on(&mut self, folds: &[Fold]) -> Result<Ending, AllocError>
        requires sized { IsSized self.old }
        requires folds { AreFoldsOver self.old.columns folds.now }
        requires last { (f : FoldOf) × StandsBefore self.old folds.now f × LoadsNothing self.old f }
        ensures sizes { HasSameSizes self.old self.new }
        ensures answer { IfOk result (λ e. HasEndedAs self.new folds.now e) }
    {
        self.places.push(Place::Row(0))?;
        Ok(self.settle(folds))
    }

    /// Goes on with one more row that changes no number: its slack has a place, and nothing else is new.
    fn stay(&mut self) -> Result<(), AllocError>
        ensures sizes { HasSameSizes self.old self.new }
        ensures stays { OnOk result (HasOneMore self.old self.new) }
    {
        self.places.push(Place::Row(0))?;
        Ok(())
    }

    /// Goes on with one more row, whose effect is given: it stands at the end of the run on the folds but the last, and goes on
    /// to the end of that on all.
    pub fn go_on(
        &mut self,
        folds: &[Fold],
        fold: &Fold,
        effect: Effect,
    ) -> Result<Ending, AllocError>
        requires sized { IsSized self.old }
        requires folds { AreFoldsOver self.old.columns folds.now }
        requires stands { StandsBefore self.old folds.now fold.now }
        requires effect { HasEffect self.old fold.now effect }
        ensures sizes { HasSameSizes self.old self.new }
        ensures answer { IfOk result (λ e. HasEndedAs self.new folds.now e) }
        ensures stays { OnOk result (HasStayed self.old self.new effect) }
    {
        match effect {
            Effect::Loads(height) => self.load(fold, height),
            Effect::Moves => self.move_on(folds),
            Effect::Stays => {
                self.stay()?;
                Ok(Ending::Feasible)
            }
        }
    }
}
