//! The solver with its memory.
use crate::grid::Grid;
use crate::row::PivotRow;
use crate::run::{Solved, run};
use ntfe_model::Fold;
use std::alloc::{AllocError, Global};
use std::marker::Model;

/// What the last solve answered.
#[derive(Clone, Copy, Drop)]
enum Last {
    Nothing,
    Heights,
    Multipliers,
}

/// The memory of the solver, for a number of rows at most and for a number of columns.
#[derive(Drop)]
pub struct Tableau {
    rows: u32,
    grid: Grid,
    heights: Vec<i64>,
    multipliers: Vec<(u32, i64)>,
    last: Last,
}

impl Model for Tableau {
    ghost use Rattle.std.specs.Prelude.{◌≡◌, ◌<◌, ◌≤◌, ◌^◌, length, vec_capacity};
    ghost use Rattle.strict_solver.specs.Answers.{Solver};

    ghost Value = { Solver };

    ghost use Rattle.strict_solver.specs.Starts.{HasRoomFor};
    ghost use Rattle.strict_solver.specs.Solving.{answer_of};

    ghost view = { λ t. record { rows = t.rows; columns = t.grid.columns; answer = answer_of t.last t.heights.items t.multipliers.items } };

    ghost invariant = { λ t. HasRoomFor t.rows t.grid × (length t.heights.items ≡ t.grid.columns) × (t.rows ≤ vec_capacity t.multipliers) × (t.rows < 2 ^ 32) };
}

impl Tableau {
    ghost use Rattle.std.specs.Prelude.{◌≡◌, ◌<◌, ◌≤◌, ◌^◌, ℕ, ℤ, List, pos, map, length, IfOk};
    ghost use Rattle.ntfe_model.specs.Solver.{fold_row};
    ghost use Rattle.strict_solver.specs.Answers.Answer.{unsolved, feasible, infeasible};
    ghost use Rattle.strict_solver.specs.Starts.{AreFoldsOver};
    ghost use Rattle.strict_solver.specs.Solving.{HasSolved, HasMeaning};

    /// Takes all memory for problems of at most so many rows over so many columns.
    ///
    /// # Errors
    /// `AllocError` where memory is short.
    pub fn reserve(alloc: Global, rows: u32, columns: u32) -> Result<Tableau, AllocError>
        requires { columns ≤ 400 }
        ensures rows { IfOk result (λ t. t.rows ≡ rows) }
        ensures columns { IfOk result (λ t. t.columns ≡ columns) }
        ensures answer { IfOk result (λ t. t.answer ≡ unsolved) }
    {
        let stride = columns as usize + 2;
        let grid = Grid {
            columns: columns as usize,
            cells: vec![in alloc; 0; rows as usize * stride]?,
            places: Vec::with_capacity(alloc, columns as usize + rows as usize)?,
            pivot: PivotRow {
                row: 0,
                column: 0,
                denominator: 1,
                numbers: vec![in alloc; 0; stride]?,
                largest: 0,
            },
            scratch: vec![in alloc; 0; stride]?,
        };
        Ok(Tableau {
            rows,
            grid,
            heights: vec![in alloc; 0; columns as usize]?,
            multipliers: Vec::with_capacity(alloc, rows as usize)?,
            last: Last::Nothing,
        })
    }

    /// The reserved number of rows.
    pub fn rows(&self) -> u32
        ensures { result ≡ self.now.rows }
    {
        self.rows
    }

    /// Looks for heights at which every row is at least 1, by the stated solver with numbers below 2^width in size.
    /// Takes no memory.
    pub fn solve(&mut self, rows: &[Fold], width: u8) -> Solved
        requires low { 1 ≤ width }
        requires high { width ≤ 62 }
        requires rows { length rows.now ≤ self.old.rows }
        requires folds { AreFoldsOver self.old.columns rows.now }
        ensures rows { self.new.rows ≡ self.old.rows }
        ensures columns { self.new.columns ≡ self.old.columns }
        ensures answer { HasSolved self.old.columns (map (fold_row self.old.columns) rows.now) width result self.new.answer }
        ensures meaning { HasMeaning self.old.columns rows.now result self.new.answer }
    {
        self.last = Last::Nothing;
        let answer = run(
            &mut self.grid,
            rows,
            width,
            &mut self.heights,
            &mut self.multipliers,
        );
        self.last = match answer {
            Solved::Feasible => Last::Heights,
            Solved::Infeasible => Last::Multipliers,
            Solved::Wide { .. } => Last::Nothing,
        };
        answer
    }

    /// The heights that the last solve found.
    pub fn heights(&self) -> &[i64]
        requires { (hs : List ℤ) × (self.now.answer ≡ feasible hs) }
        ensures { self.now.answer ≡ feasible result.now }
    {
        &self.heights
    }

    /// The multipliers that the last solve found: row numbers from 0, rising, each with a positive multiplier.
    pub fn multipliers(&self) -> &[(u32, i64)]
        requires { (ms : List (ℕ × ℤ)) × (self.now.answer ≡ infeasible ms) }
        ensures { self.now.answer ≡ infeasible result.now }
    {
        &self.multipliers
    }
}
