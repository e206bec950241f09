//! The first segments of a two-face, as a worker holds them.
ghost use Rattle.std.specs.Prelude.{◌≡◌, ◌*◌, ◌<◌, ◌≤◌, ◌/◌, [], None, Some, length, IfOk, IfNone, OnErr, MatchBool, MatchOption};
ghost use Rattle.ntfe_model.specs.Words.{IsItem, HasItemAt};
ghost use Rattle.shared_stream.specs.Segments.{HasSegment};
ghost use Rattle.shared_stream.specs.Held.{stretch_of, held_item, GoesOn, HasOneMore, IsHeldItem};

use crate::cells::Cells;
use crate::handed::Handed;
use crate::segment::Segment;
use crate::taking::SEGMENT_ITEMS;
use ntfe_model::Triangulation;
use std::alloc::{AllocError, Global};
use std::marker::Model;

/// A segment that the shelf lends, or one of the worker's own.
#[derive(Drop)]
pub enum Held<'s> {
    Lent(&'s Segment),
    Own(Segment),
}

impl<'s> Held<'s> {
    fn segment(&self) -> &Segment
        ensures { result.now ≡ stretch_of self.now }
    {
        match self {
            Held::Lent(segment) => segment,
            Held::Own(segment) => segment,
        }
    }
}

/// The first segments of a two-face, in order.
#[derive(Drop)]
pub struct HeldSegments<'s> {
    alloc: Global,
    cells: &'s Cells,
    held: Vec<Held<'s>>,
}

impl<'s> Model for HeldSegments<'s> {
    ghost use Rattle.std.specs.Prelude.{map};
    ghost use Rattle.shared_stream.specs.Held.{FirstStretches, AreFirst, stretch_of};

    ghost Value = { FirstStretches };

    ghost view = { λ r. record { patch = r.cells.now; stretches = map stretch_of r.held.items } };

    ghost invariant = { λ r. AreFirst r.cells.now (map stretch_of r.held.items) };
}

impl<'s> HeldSegments<'s> {
    /// No segment of the two-face yet. Takes no memory yet.
    pub fn new(alloc: Global, cells: &'s Cells) -> HeldSegments<'s>
        ensures patch { result.patch ≡ cells.now }
        ensures nothing { result.stretches ≡ [] }
    {
        HeldSegments {
            alloc,
            cells,
            held: Vec::new(alloc),
        }
    }

    /// How many segments are held.
    fn len(&self) -> usize
        ensures { result ≡ length self.now.stretches }
    {
        self.held.len()
    }

    /// The item with this number, where its segment is held. Takes no memory.
    pub fn item(&self, number: u32) -> Option<&Triangulation>
        ensures value { MatchOption result (held_item self.now number ≡ None) (λ x. held_item self.now number ≡ Some x.now) }
        ensures item { MatchOption result (Unit {0}) (λ x. IsItem self.now.patch number x.now) }
        ensures none { IfNone result (number / 256 < length self.now.stretches → ¬ (HasItemAt self.now.patch number)) }
    {
        let place = (number / SEGMENT_ITEMS) as usize;
        if place >= self.held.len() {
            return None;
        }
        self.held[place].segment().item(number)
    }

    /// Takes the next segment. The answer is whether there is one.
    fn grow(&mut self) -> Result<bool, AllocError>
        requires { length self.old.stretches ≤ 4096 }
        ensures patch { self.new.patch ≡ self.old.patch }
        ensures answer { IfOk result (λ grew. MatchBool grew (HasOneMore self.old.stretches self.new.stretches) ((self.new.stretches ≡ self.old.stretches) × (¬ (HasSegment self.old.patch (length self.old.stretches))))) }
        ensures unchanged { OnErr result (self.new ≡ self.old) }
    {
        self.held.reserve(1)?;
        let cells = self.cells;
        let number = self.held.len() as u32;
        match cells.segment(self.alloc, number)? {
            Handed::Lent(segment) => {
                self.held.push_reserved(Held::Lent(segment));
                Ok(true)
            }
            Handed::Own(segment, _) => {
                self.held.push_reserved(Held::Own(segment));
                Ok(true)
            }
            Handed::Past { segments: _ } => Ok(false),
        }
    }

    /// Takes segments until the one of this item is held. The answer is whether there is such an item.
    pub fn fetch(&mut self, number: u32) -> Result<bool, AllocError>
        requires { number ≤ 1048576 }
        ensures patch { self.new.patch ≡ self.old.patch }
        ensures kept { GoesOn self.old.stretches self.new.stretches }
        ensures answer { IfOk result (λ found. MatchBool found (IsHeldItem self.new number) (¬ (HasItemAt self.old.patch number))) }
    {
        while self.len() <= (number / SEGMENT_ITEMS) as usize {
            if !self.grow()? {
                return Ok(false);
            }
        }
        Ok(self.item(number).is_some())
    }
}
