//! The first items of a two-face.
ghost use Rattle.std.specs.Prelude.{◌≡◌, ℕ, ◌<◌, ◌≤◌, [], Option, None, Some, length, slice_get, IfOk, OnErr, MatchBool, MatchOption};
ghost use Rattle.ntfe_model.specs.Words.{IsItem, HasItemAt};

use crate::stream::Stream;
use face_chart::Chart;
use ntfe_model::Triangulation;
use std::alloc::{AllocError, Global};
use std::marker::Model;

/// The first items of a two-face, and the stream of those that follow.
#[derive(Drop)]
pub struct Row {
    stream: Stream,
    items: Vec<Triangulation>,
}

impl Model for Row {
    ghost use Rattle.fine_stream.specs.Rows.{FirstItems, IsRow};

    ghost Value = { FirstItems };

    ghost view = { λ r. record { patch = r.stream.patch; items = r.items.items } };

    ghost invariant = { λ r. IsRow r.stream r.items.items };
}

impl Row {
    ghost use Rattle.fine_stream.specs.Rows.{GoesOn, HasOneMore};

    /// The row of a two-face, with no item yet.
    pub fn new(alloc: Global, chart: Chart) -> Result<Row, AllocError>
        ensures patch { IfOk result (λ r. r.patch ≡ chart) }
        ensures items { IfOk result (λ r. r.items ≡ []) }
    {
        let stream = Stream::new(alloc, chart)?;
        Ok(Row {
            stream,
            items: Vec::new(alloc),
        })
    }

    /// How many items are here.
    fn len(&self) -> usize
        ensures { result ≡ length self.now.items }
    {
        self.items.len()
    }

    /// The item with this number, where it is here. Takes no memory.
    pub fn get(&self, number: usize) -> Option<&Triangulation>
        ensures value { MatchOption result (slice_get self.now.items number ≡ None) (λ x. slice_get self.now.items number ≡ Some x.now) }
        ensures item { MatchOption result (Unit {0}) (λ x. IsItem self.now.patch number x.now) }
    {
        if number < self.items.len() {
            return Some(&self.items[number]);
        }
        None
    }

    /// Adds the next item. The answer is whether there is one.
    fn grow(&mut self) -> Result<bool, AllocError>
        ensures patch { self.new.patch ≡ self.old.patch }
        ensures answer { IfOk result (λ grew. MatchBool grew (HasOneMore self.old.items self.new.items) ((self.new.items ≡ self.old.items) × ((k : ℕ) → length self.old.items ≤ k → ¬ (HasItemAt self.old.patch k)))) }
        ensures unchanged { OnErr result (self.new ≡ self.old) }
    {
        self.items.reserve(1)?;
        match self.stream.next()? {
            None => Ok(false),
            Some(item) => {
                // there is room
                let _ = self.items.push(item);
                Ok(true)
            }
        }
    }

    /// Adds items until the one with this number is here. The answer is whether there is one.
    pub fn fetch(&mut self, number: usize) -> Result<bool, AllocError>
        ensures patch { self.new.patch ≡ self.old.patch }
        ensures kept { GoesOn self.old.items self.new.items }
        ensures answer { IfOk result (λ found. MatchBool found (number < length self.new.items) (¬ (HasItemAt self.old.patch number))) }
    {
        while self.len() <= number {
            if !self.grow()? {
                return Ok(false);
            }
        }
        Ok(true)
    }
}
