//! The board of a pool, with what is locked beside it.
ghost use Rattle.std.specs.Prelude.{◌≡◌, ◌<◌, ◌↔◌, true, [], length, IsTrue, IfSome};
ghost use Rattle.choice_board.specs.Starts.{new_board};
ghost use Rattle.choice_board.specs.States.{IsSound};
ghost use Rattle.steal_workers.specs.Boards.{IsOver};
ghost use Rattle.steal_workers.specs.Probing.{IsVerdictOn};
ghost use Rattle.steal_workers.specs.Shared.{AreHandedOut, IsListedOn, IsLook, IsSameListing};
ghost use Rattle.steal_workers.specs.Tallies.{IsSameTally};

use crate::crew::{Crew, News};
use crate::listing::Listing;
use crate::look::Look;
use crate::row::Row;
use crate::tally::Tally;
use choice_board::{Board, Verdict};
use ntfe_model::{Choice, Geometry, Key};
use std::alloc::{AllocError, Global};
use std::cmp::Ordering;
use std::marker::Model;
use std::sync::ledger::{Book, Ledger};

/// What lies under the lock of a pool: the board, the width and start of its pool, and the sum of all that its workers
/// booked. All that waits on the board may be come to from that start at that width, so one moment under the lock is
/// enough for whoever writes what it hands out then.
#[derive(Drop)]
pub struct SharedBoard<L: Ledger> {
    board: Board,
    width: u8,
    start: Option<Choice>,
    book: Book<L>,
    crew: Crew,
    /// Keys that workers gave to others. Each stays open on the board until it is settled, so no answer depends on them.
    given: Vec<Key>,
}

impl<L: Ledger> Model for SharedBoard<L> {
    ghost use Rattle.steal_workers.specs.Shared.{Shared, IsShared};

    ghost Value = { Shared };

    ghost view = { λ s. record { board = s.board; width = s.width; start = s.start; booked = s.book.total } };

    ghost invariant = { λ s. IsShared (record { board = s.board; width = s.width; start = s.start; booked = s.book.total }) };
}

/// Whether both are the same choice.
fn is_same_choice(one: &Choice, other: &Choice) -> bool
    ensures { IsTrue result ↔ (one.now ≡ other.now) }
{
    one.0.as_slice() == other.0.as_slice()
}

/// Whether both are the same start.
fn is_same_start(one: &Option<Choice>, other: &Option<Choice>) -> bool
    ensures { IsTrue result ↔ (one.now ≡ other.now) }
{
    match (one, other) {
        (Some(one), Some(other)) => is_same_choice(one, other),
        (None, None) => true,
        _ => false,
    }
}

/// Whether the class that the board handed out last, or its start, is this one.
fn is_last_of(board: &Board, last: &Option<Choice>) -> bool
    ensures { IsTrue result ↔ (board.now.last ≡ last.now) }
{
    match (board.last(), last) {
        (Some(one), Some(other)) => is_same_choice(one, other),
        (None, None) => true,
        _ => false,
    }
}

/// Whether one key comes before the other.
fn is_less(one: &Key, other: &Key) -> bool {
    one.0.as_slice().cmp(other.0.as_slice()) == Ordering::Less
}

/// The place of the least of the keys.
fn least_place(keys: &[Key]) -> Option<usize>
    ensures { IfSome result (λ p. p < length keys.now) }
{
    if keys.is_empty() {
        return None;
    }
    let mut least = 0;
    for place in 1..keys.len() {
        if is_less(&keys[place], &keys[least]) {
            least = place;
        }
    }
    Some(least)
}

/// Takes what the board hands out, as far as the row has room.
fn fill(row: &mut Row, board: &mut Board)
    requires { row.old ≡ [] }
    ensures { AreHandedOut board.old board.new row.new }
{
    while !row.is_full() {
        let Some(outcome) = board.ready() else {
            return;
        };
        row.push(outcome);
    }
}

impl<L: Ledger> SharedBoard<L> {
    /// A new board with what is locked beside it.
    pub fn new(
        alloc: Global,
        board: Board,
        width: u8,
        start: Option<Choice>,
        book: Book<L>,
    ) -> SharedBoard<L>
        requires board { board ≡ new_board board.geometry start }
        requires sound { IsSound board }
        requires book { book.total ≡ 0 }
        ensures { result ≡ record { board = board; width = width; start = start; booked = 0 } }
    {
        SharedBoard {
            board,
            width,
            start,
            book,
            crew: Crew::new(),
            given: Vec::new(alloc),
        }
    }

    /// Who is at work.
    pub fn crew(&self) -> Crew {
        self.crew
    }

    /// From now on these are at work.
    pub fn set_crew(&mut self, crew: Crew)
        ensures { self.new ≡ self.old }
    {
        self.crew = crew;
    }

    /// What is told to a worker.
    pub fn news(&self) -> News {
        let totals = self.board.totals();
        News {
            open: self.board.least().is_some(),
            ready: self.board.is_ready(),
            room: self.crew.room(totals.classes, totals.written),
            given: false,
        }
    }

    /// How many more keys the idle workers would take.
    pub fn wanted(&self) -> usize {
        usize::from(self.crew.idle()).saturating_sub(self.given.len())
    }

    /// Gives a key to the others. Where memory is short it is dropped.
    pub fn give(&mut self, key: Key)
        ensures { self.new ≡ self.old }
    {
        let _ = self.given.push(key);
    }

    /// Takes the least given key, if it comes before this one or there is none to come before.
    pub fn take_given(&mut self, next: Option<&Key>) -> Option<Key>
        ensures { self.new ≡ self.old }
    {
        let place = least_place(&self.given)?;
        let comes_first = match next {
            Some(next) => is_less(&self.given[place], next),
            None => true,
        };
        if !comes_first {
            return None;
        }
        Some(self.given.remove(place))
    }

    /// Whether the board is of this geometry and width.
    pub fn is_of(&self, geometry: &Geometry, width: u8) -> bool
        ensures { IsTrue result ↔ ((self.now.board.geometry ≡ geometry.now) × (self.now.width ≡ width)) }
    {
        self.width == width && self.board.geometry().same(geometry)
    }

    /// Whether the board is that of the listing, and the class that it handed out last is this one.
    fn is_at(&self, listing: &Listing<'_>, last: &Option<Choice>) -> bool
        ensures { IsTrue result ↔ (IsListedOn self.now listing.now × (self.now.board.last ≡ last.now)) }
    {
        self.is_of(listing.geometry(), listing.width())
            && is_same_start(&self.start, listing.start())
            && is_last_of(&self.board, last)
    }

    /// Takes what comes after the class that was written last, for the server of the listing. Takes no memory.
    pub fn take(&mut self, listing: &Listing<'_>, last: &Option<Choice>, row: &mut Row) -> Look
        requires empty { row.old ≡ [] }
        ensures look { IsLook listing.now last.now row.new result }
    {
        if !self.is_at(listing, last) {
            return Look::Foreign;
        }
        fill(row, &mut self.board);
        if !row.is_empty() {
            return Look::Row;
        }
        if self.is_over() {
            return Look::Done;
        }
        Look::Waiting
    }

    /// Whether nothing is left to be settled or handed out, and the listing was not stopped.
    fn is_over(&self) -> bool
        ensures { IsTrue result → IsOver self.now.board }
    {
        self.board.finished() && !self.board.stopped()
    }

    /// The least open key; none where no key is open, or the board is closed. Takes no memory.
    pub fn least(&self) -> Option<&Key> {
        self.board.least()
    }

    /// From now on no open key is given out.
    pub fn close(&mut self) {
        self.board.close();
    }

    /// Closes the key with the verdict, if it is open, and books it then. False where the key is not open.
    ///
    /// # Errors
    /// `AllocError` where memory is short. Nothing is closed or booked then.
    pub fn settle(
        &mut self,
        key: &Key,
        verdict: Verdict,
        mine: &mut Tally<L>,
    ) -> Result<bool, AllocError>
        requires verdict { IsVerdictOn self.old.board.geometry self.old.width key.now verdict }
        requires part { 0 < mine.old.parts }
        ensures listing { IsSameListing self.old self.new }
        ensures tally { IsSameTally mine.old mine.new }
    {
        if !self.board.settle_key(key, verdict)? {
            return Ok(false);
        }
        mine.book(&mut self.book);
        Ok(true)
    }

    /// Whether the tally counts as many settled keys as the board. It does where it holds every part of the ledger.
    pub fn agrees_with(&mut self, all: &mut Tally<L>) -> bool
        ensures whole { all.old.parts ≡ L.parts → result ≡ true }
        ensures same { all.new ≡ all.old }
    {
        all.audit(&mut self.book);
        all.settled().min(1 << 63) == self.board.totals().settled
    }
}
