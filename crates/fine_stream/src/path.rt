//! A word as far as it has come.
ghost use Rattle.std.specs.Prelude.{◌≡◌, true, false, ℕ, ◌<◌, ◌≤◌, ◌++◌, ◌∷◌, [], List, length, take, drop, IfOk, OnOk};
ghost use Rattle.ntfe_model.specs.Words.{written as as_written, after_side};
ghost use Rattle.fine_stream.specs.Kept.{Keeps, waiting_after};
ghost use Rattle.fine_stream.specs.Places.{ArePlaces, ArePlaced};

use crate::fronts::add_after;
use crate::tables::Tables;
use ntfe_model::Triangle;
use std::alloc::{AllocError, Global};

/// A word as far as it has come, with its triangles, and the steps that wait before and after each of them.
#[derive(Drop)]
pub struct Path {
    pub word: Vec<u32>,
    pub triangles: Vec<Triangle>,
    /// The places of the triangles in the tables.
    pub places: Vec<usize>,
    /// The lists of the waiting steps, one after the other. The last one waits now.
    pub steps: Vec<(u32, u32)>,
    /// Where the lists after the first one begin.
    pub starts: Vec<usize>,
    /// What waits between the two sides of a triangle.
    pub between: Vec<(u32, u32)>,
}

/// The triangle of three points that turn to the left, with the least number first.
pub fn written(a: u32, b: u32, c: u32) -> Triangle
    ensures { result ≡ as_written a b c }
{
    if a < b && a < c {
        return Triangle { a, b, c };
    }
    if b < a && b < c {
        return Triangle { a: b, b: c, c: a };
    }
    Triangle { a: c, b: a, c: b }
}

impl Path {
    ghost use Rattle.ntfe_model.specs.declared.triangle.Triangle.{Triangle};

    /// The empty path, where these steps wait, with room for a word of this length.
    pub fn new(alloc: Global, steps: &[(u32, u32)], room: usize) -> Result<Path, AllocError>
        ensures word { IfOk result (λ p. p.word.items ≡ []) }
        ensures triangles { IfOk result (λ p. p.triangles.items ≡ []) }
        ensures steps { IfOk result (λ p. p.steps.items ≡ steps.now) }
        ensures starts { IfOk result (λ p. p.starts.items ≡ []) }
        ensures places { IfOk result (λ p. p.places.items ≡ []) }
    {
        let word = Vec::with_capacity(alloc, room)?;
        let triangles = Vec::with_capacity(alloc, room)?;
        let places = Vec::with_capacity(alloc, room)?;
        let steps = Vec::from_slice(alloc, steps)?;
        let starts = Vec::with_capacity(alloc, room)?;
        Ok(Path {
            word,
            triangles,
            places,
            steps,
            starts,
            between: Vec::new(alloc),
        })
    }

    /// Adds the steps that wait once the first step of those from `start` on is closed to the triangle with the point c.
    fn push_steps(&mut self, start: usize, c: u32) -> Result<(), AllocError>
        requires { start < length self.old.steps.items }
        ensures word { self.new.word ≡ self.old.word }
        ensures triangles { self.new.triangles ≡ self.old.triangles }
        ensures starts { self.new.starts ≡ self.old.starts }
        ensures places { self.new.places ≡ self.old.places }
        ensures steps { OnOk result ((a b : ℕ) (fs : List (ℕ × ℕ)) → drop start self.old.steps.items ≡ (a, b) ∷ fs
            → self.new.steps.items ≡ self.old.steps.items ++ after_side (c, a) (after_side (b, c) fs)) }
    {
        let (a, b) = self.steps[start];
        self.between.clear();
        add_after((b, c), &self.steps[start + 1..], &mut self.between)?;
        add_after((c, a), self.between.as_slice(), &mut self.steps)?;
        Ok(())
    }

    /// Adds a number with its triangle, which closes the first step of those from `start` on, and the steps that wait then.
    pub fn push(
        &mut self,
        start: usize,
        c: u32,
        triangle: Triangle,
        place: usize,
    ) -> Result<(), AllocError>
        requires { start < length self.old.steps.items }
        ensures word { OnOk result (self.new.word.items ≡ self.old.word.items ++ c ∷ []) }
        ensures triangles { OnOk result (self.new.triangles.items ≡ self.old.triangles.items ++ triangle ∷ []) }
        ensures steps { OnOk result ((a b : ℕ) (fs : List (ℕ × ℕ)) → drop start self.old.steps.items ≡ (a, b) ∷ fs
            → self.new.steps.items ≡ self.old.steps.items ++ after_side (c, a) (after_side (b, c) fs)) }
        ensures starts { OnOk result (self.new.starts.items ≡ self.old.starts.items ++ length self.old.steps.items ∷ []) }
        ensures places { OnOk result (self.new.places.items ≡ self.old.places.items ++ place ∷ []) }
    {
        let next = self.steps.len();
        self.push_steps(start, c)?;
        self.word.push(c)?;
        self.triangles.push(triangle)?;
        self.places.push(place)?;
        self.starts.push(next)?;
        Ok(())
    }

    /// Takes the last number and its triangle away, and all but so many steps.
    pub fn pop(&mut self, steps: usize)
        ensures word { (word : List ℕ) (c : ℕ) → self.old.word.items ≡ word ++ c ∷ [] → self.new.word.items ≡ word }
        ensures triangles { (ts : List Triangle) (t : Triangle) → self.old.triangles.items ≡ ts ++ t ∷ [] → self.new.triangles.items ≡ ts }
        ensures steps { self.new.steps.items ≡ take steps self.old.steps.items }
        ensures starts { (ss : List ℕ) (s : ℕ) → self.old.starts.items ≡ ss ++ s ∷ [] → self.new.starts.items ≡ ss }
        ensures places { (ps : List ℕ) (p : ℕ) → self.old.places.items ≡ ps ++ p ∷ [] → self.new.places.items ≡ ps }
    {
        let _ = self.word.pop();
        let _ = self.triangles.pop();
        let _ = self.places.pop();
        let _ = self.starts.pop();
        self.steps.truncate(steps);
    }

    /// The last of the starts, or 0.
    fn last_start(&self) -> usize
        ensures first { self.now.starts.items ≡ [] → result ≡ 0 }
        ensures last { (ss : List ℕ) (s : ℕ) → self.now.starts.items ≡ ss ++ s ∷ [] → result ≡ s }
    {
        match self.starts.last() {
            None => 0,
            Some(start) => *start,
        }
    }

    /// Where the list begins that waits now.
    pub fn start(&self) -> usize
        ensures { (root : List (ℕ × ℕ)) (r : List ℕ) → Keeps root r self.now → (result ≤ length self.now.steps.items) × (drop result self.now.steps.items ≡ waiting_after root r) }
    {
        self.last_start()
    }

    /// Adds a number with the triangle that closes the first step that waits.
    pub fn close(&mut self, tables: &Tables, c: u32) -> Result<(), AllocError>
        requires { (root : List (ℕ × ℕ)) × (r : List ℕ) × Keeps root r self.old × (0 < length (waiting_after root r)) }
        ensures kept { OnOk result ((root : List (ℕ × ℕ)) (r : List ℕ) → Keeps root r self.old → Keeps root (c ∷ r) self.new) }
        ensures placed { OnOk result (ArePlaced tables.now self.old → ArePlaced tables.now self.new) }
    {
        let start = self.start();
        let (a, b) = self.steps[start];
        let triangle = written(a, b, c);
        let place = tables.place(&triangle);
        self.push(start, c, triangle, place)?;
        Ok(())
    }

    /// Whether the word has no number.
    pub fn is_empty(&self) -> bool
        ensures when_true { result ≡ true → length self.now.word.items ≡ 0 }
        ensures when_false { result ≡ false → 0 < length self.now.word.items }
    {
        self.word.is_empty()
    }

    /// The last number of the word.
    fn last(&self) -> u32
        requires { 0 < length self.now.word.items }
        ensures { (word : List ℕ) (c : ℕ) → self.now.word.items ≡ word ++ c ∷ [] → result ≡ c }
    {
        self.word[self.word.len() - 1]
    }

    /// Takes the last number back, with its triangle and the steps that wait after it. The answer is this number.
    pub fn back(&mut self) -> u32
        requires { 0 < length self.old.word.items }
        ensures kept { (root : List (ℕ × ℕ)) (r : List ℕ) (c : ℕ) → Keeps root (c ∷ r) self.old → (result ≡ c) × Keeps root r self.new }
        ensures placed { (root : List (ℕ × ℕ)) (r : List ℕ) (c : ℕ) (triples : List Triangle) → Keeps root (c ∷ r) self.old → ArePlaces triples self.old.places.items self.old.triangles.items → ArePlaces triples self.new.places.items self.new.triangles.items }
    {
        let c = self.last();
        let steps = self.last_start();
        self.pop(steps);
        c
    }
}
