//! A segment of the items of a two-face.
ghost use Rattle.std.specs.Prelude.{◌≡◌, ℕ, ◌+◌, ◌*◌, ◌<◌, ◌↔◌, false, None, Some, length, IfOk, IsTrue, MatchBool, MatchOption};
ghost use Rattle.ntfe_model.specs.Charts.{Patch};
ghost use Rattle.ntfe_model.specs.Words.{IsItem, HasItemAt};
ghost use Rattle.fine_stream.specs.Cursors.{StandsBefore};
ghost use Rattle.shared_stream.specs.Segments.{HasSegment, IsSegmentOf, item_in, IsNumberOf};

use crate::taking::{SEGMENT_ITEMS, next_items};
use face_chart::Chart;
use fine_stream::{FaceTables, LentStream};
use ntfe_model::Triangulation;
use std::alloc::{AllocError, Global};
use std::marker::Model;

/// A segment of a two-face: its items with the numbers from 256 times the segment's number on, up to 256 of them.
#[derive(Drop)]
pub struct Segment {
    number: u32,
    chart: Chart,
    items: Vec<Triangulation>,
    ended: bool,
}

impl Model for Segment {
    ghost use Rattle.shared_stream.specs.Segments.{Stretch, IsSegment};

    ghost Value = { Stretch };

    ghost view = { λ s. record { patch = s.chart; number = s.number; items = s.items.items; ended = s.ended } };

    ghost invariant = { λ s. IsSegment (record { patch = s.chart; number = s.number; items = s.items.items; ended = s.ended }) };
}

impl Segment {
    /// The number of the segment, from 0. Takes no memory.
    pub fn number(&self) -> u32
        ensures value { result ≡ self.now.number }
        ensures segment { HasSegment self.now.patch self.now.number }
    {
        self.number
    }

    /// The two-face. Takes no memory.
    pub fn chart(&self) -> &Chart
        ensures { result.now ≡ self.now.patch }
    {
        &self.chart
    }

    /// Whether the two-face has no item behind this segment. Takes no memory.
    pub fn ended(&self) -> bool
        ensures ended { result ≡ self.now.ended }
        ensures next { MatchBool result (¬ (HasItemAt self.now.patch (256 * self.now.number + 256))) (HasItemAt self.now.patch (256 * self.now.number + 256)) }
    {
        self.ended
    }

    /// The item with this number; none exactly where it is not in the segment. Takes no memory.
    pub fn item(&self, number: u32) -> Option<&Triangulation>
        ensures value { MatchOption result (item_in self.now number ≡ None) (λ x. item_in self.now number ≡ Some x.now) }
        ensures item { MatchOption result (¬ (IsNumberOf self.now number × HasItemAt self.now.patch number)) (λ x. IsNumberOf self.now number × IsItem self.now.patch number x.now) }
    {
        if number / SEGMENT_ITEMS != self.number {
            return None;
        }
        let place = (number % SEGMENT_ITEMS) as usize;
        if place >= self.items.len() {
            return None;
        }
        Some(&self.items[place])
    }

    /// Whether this is the segment of a two-face with this number. Takes no memory.
    pub(crate) fn is_of(&self, chart: &Chart, number: u32) -> bool
        ensures { IsTrue result ↔ IsSegmentOf chart.now number self.now }
    {
        self.number == number && self.chart.same(chart)
    }

    /// The last item of a segment behind which there are more.
    fn last(&self) -> &Triangulation
        requires { self.now.ended ≡ false }
        ensures { IsItem self.now.patch (256 * self.now.number + 255) result.now }
    {
        &self.items[255]
    }

    /// The segment whose items a stream gives next.
    fn from_stream(
        alloc: Global,
        stream: &mut LentStream<'_>,
        number: u32,
    ) -> Result<Segment, AllocError>
        requires segment { HasSegment stream.old.patch number }
        requires stands { StandsBefore stream.old (256 * number) }
        ensures { IfOk result (IsSegmentOf stream.old.patch number) }
    {
        let items = next_items(alloc, stream)?;
        let ended = stream.next()?.is_none();
        let chart = stream.chart().try_clone(alloc)?;
        Ok(Segment {
            number,
            chart,
            items,
            ended,
        })
    }

    /// The first segment of a two-face.
    pub(crate) fn first(alloc: Global, tables: &FaceTables) -> Result<Segment, AllocError>
        ensures { IfOk result (IsSegmentOf tables.now.patch 0) }
    {
        let mut stream = LentStream::new(alloc, tables);
        Segment::from_stream(alloc, &mut stream, 0)
    }

    /// The segment that follows another.
    pub(crate) fn after(
        alloc: Global,
        tables: &FaceTables,
        previous: &Segment,
    ) -> Result<Segment, AllocError>
        requires tables { tables.now.patch ≡ previous.now.patch }
        requires more { previous.now.ended ≡ false }
        requires few { previous.now.number < 4096 }
        ensures { IfOk result (IsSegmentOf previous.now.patch (previous.now.number + 1)) }
    {
        let mut stream = LentStream::from_word(alloc, tables, previous.last())?;
        Segment::from_stream(alloc, &mut stream, previous.number + 1)
    }
}
