//! A pool: workers over one board, which share certificates and hand keys to each other.
ghost use Rattle.std.specs.Prelude.{◌≡◌, ◌<◌, ◌≤◌, ◌+◌, [], length, map, true, IfOk, All};
ghost use Rattle.std.specs.List.{range_with_len};
ghost use Rattle.ntfe_model.specs.Keys.{IsStart};
ghost use Rattle.steal_ring.specs.Seats.{got, IsRing};
ghost use Rattle.steal_workers.specs.Pools.{probes_of};
ghost use Rattle.steal_workers.specs.Shared.{IsLook};
ghost use Rattle.steal_workers.specs.Tallies.{IsSameTally};

use crate::crew::{News, Told};
use crate::listing::Listing;
use crate::look::Look;
use crate::row::Row;
use crate::shared_board::SharedBoard;
use crate::tally::{Stake, Tally};
use crate::worker::Worker;
use crate::writer::copied_start;
use choice_board::Board;
use crossbeam_utils::CachePadded;
use nogood_store::Store;
use ntfe_model::{Choice, Geometry, List};
use shared_stream::Shelf;
use std::alloc::{AllocError, Global};
use std::marker::Model;
use std::sync::ledger::{Blank, Ledger, Share};
use std::sync::{Condvar, Mutex, Wait};
use steal_ring::{Ring, Seat};

/// What a worker found that looked for a key.
#[derive(Clone, Copy, Drop)]
pub(crate) enum Found {
    Key,
    Nothing,
    /// No key is open.
    End,
}

/// What workers share: a board, a store of certificates, and a shelf that lends items. A server writes what the board hands out. One moment under
/// the lock is enough for each row of outcomes, so the blocks are the same whatever the workers do.
#[derive(Drop)]
pub struct Pool<'g, L: Ledger> {
    pub(crate) alloc: Global,
    pub(crate) geometry: &'g Geometry,
    pub(crate) start: Option<Choice>,
    pub(crate) width: u8,
    pub(crate) store: Store,
    /// What lends items to the workers.
    pub(crate) shelf: Shelf,
    /// The server waits here for outcomes.
    pub(crate) outcomes: Condvar,
    /// Workers wait here for keys.
    pub(crate) offers: Condvar,
    locked: CachePadded<Mutex<SharedBoard<L>>>,
}

impl<'g, L: Ledger> Model for Pool<'g, L> {
    ghost use Rattle.steal_workers.specs.Pools.{Pooled, IsPooled};

    ghost Value = { Pooled };

    ghost view = { λ p. record { geometry = p.geometry.now; start = p.start; width = p.width } };

    ghost invariant = { λ p. IsPooled (record { geometry = p.geometry.now; start = p.start; width = p.width }) p.shelf };
}

/// So many stakes, each of one part of the share.
fn stakes_of<L: Ledger>(
    alloc: Global,
    share: Share<L>,
    count: u64,
) -> Result<List<Stake<L>>, AllocError>
    requires parts { share.parts ≡ count }
    requires amount { share.amount ≡ 0 }
    ensures { IfOk result (λ s. length s ≡ count) }
{
    let mut rest = share;
    let mut stakes = Vec::new(alloc);
    for _stake in 0..count {
        let part = rest.split_off(1, 0);
        stakes.push(Stake::new(part))?;
    }
    Ok(List::from_vec(stakes))
}

/// The worker takes over a given key that comes before those that it holds, and gives others to those that have none. True where
/// it gave some.
fn share_out<L: Ledger>(
    board: &mut SharedBoard<L>,
    worker: &mut Worker<'_, '_>,
    room: u64,
) -> Result<bool, AllocError>
    ensures board { board.new ≡ board.old }
    ensures worker { worker.new ≡ worker.old }
{
    if let Some(key) = board.take_given(worker.next_key()) {
        worker.hold(key)?;
    }
    let mut any = false;
    for _key in 0..board.wanted() {
        let Some(key) = worker.offered(room) else {
            break;
        };
        board.give(key);
        any = true;
    }
    Ok(any)
}

impl<'g, L: Ledger> Pool<'g, L> {
    /// A pool that lists the classes of the geometry after the start, with solver numbers below 2^width in size, the
    /// seats of its workers, all of one ring, and a stake for each worker and for the server. The blank is that of
    /// the ledger.
    ///
    /// # Errors
    /// `AllocError` where memory is short.
    pub fn new(
        alloc: Global,
        geometry: &'g Geometry,
        start: Option<Choice>,
        width: u8,
        workers: u16,
        settled: Blank,
    ) -> Result<(Pool<'g, L>, List<Seat>, List<Stake<L>>), AllocError>
        requires start { IsStart geometry.now start }
        requires low { 1 ≤ width }
        requires high { width ≤ 62 }
        requires some { 1 ≤ workers }
        requires few { workers ≤ 16 }
        requires name { settled.name ≡ L.name }
        requires whole { settled.parts ≡ L.parts }
        requires parts { settled.parts ≡ workers + 1 }
        ensures pool { IfOk result (λ r. r.0 ≡ record { geometry = geometry.now; start = start; width = width }) }
        ensures ring { IfOk result (λ r. IsRing r.1) }
        ensures numbers { IfOk result (λ r. map (λ x. x.number) r.1 ≡ range_with_len 1 workers) }
        ensures fresh { IfOk result (λ r. All (λ s. (s.put ≡ []) × (got s ≡ [])) r.1) }
        ensures stakes { IfOk result (λ r. length r.2 ≡ workers + 1) }
    {
        let (book, share) = settled.open::<L>();
        let stakes = stakes_of(alloc, share, u64::from(workers) + 1)?;
        let seats = Ring::seats(alloc, workers)?;
        let board = Board::new(
            alloc,
            geometry.try_clone(alloc)?,
            copied_start(alloc, &start)?,
        )?;
        let own_start = copied_start(alloc, &start)?;
        let store = Store::new(alloc)?;
        let shelf = Shelf::new(alloc, geometry)?;
        let shared = SharedBoard::new(alloc, board, width, own_start, book);
        let pool = Pool {
            alloc,
            geometry,
            start,
            width,
            store,
            shelf,
            outcomes: Condvar::new(),
            offers: Condvar::new(),
            locked: CachePadded::new(Mutex::new(shared)),
        };
        Ok((pool, seats, stakes))
    }

    /// Settles what the worker found. `None` where the locked board is not that of the pool.
    pub(crate) fn settle_found<R: Wait>(
        &self,
        rt: &R,
        worker: &mut Worker<'_, 'g>,
        mine: &mut Tally<L>,
    ) -> Result<Option<News>, AllocError>
        requires worker { worker.old ≡ probes_of self.now }
        requires part { 0 < mine.old.parts }
        ensures worker { worker.new ≡ worker.old }
        ensures tally { IsSameTally mine.old mine.new }
    {
        let mut guard = self.locked.lock(rt);
        let board = &mut *guard;
        if !board.is_of(self.geometry, self.width) {
            return Ok(None);
        }
        worker.settle_on(board, mine)?;
        let mut news = board.news();
        news.given = share_out(board, worker, news.room)?;
        let doing = worker.doing(&news, board.least());
        board.set_crew(board.crew().with_told(worker.told(), doing));
        worker.tell(doing);
        Ok(Some(news))
    }

    /// A key for a worker that has found no other: one that was given to others, else a copy of the least open one, where no
    /// worker is busy; then it counts as busy.
    pub(crate) fn least_key<R: Wait>(
        &self,
        rt: &R,
        worker: &mut Worker<'_, 'g>,
    ) -> Result<Found, AllocError>
        ensures { worker.new ≡ worker.old }
    {
        let mut guard = self.locked.lock(rt);
        let board = &mut *guard;
        let crew = board.crew();
        let given = board.take_given(None);
        let Some(key) = board.least() else {
            return Ok(Found::End);
        };
        if let Some(key) = given {
            worker.hold(key)?;
        } else if crew.is_busy() {
            return Ok(Found::Nothing);
        } else {
            worker.hold(key.try_clone(self.alloc)?)?;
        }
        board.set_crew(crew.with_told(worker.told(), Told::Works));
        worker.tell(Told::Works);
        Ok(Found::Key)
    }

    /// Whether a worker that is held back goes on. Where it was held back for long, and no worker works, it holds a copy
    /// of the least open key, which none may hold.
    pub(crate) fn go_on<R: Wait>(
        &self,
        rt: &R,
        worker: &mut Worker<'_, 'g>,
    ) -> Result<Found, AllocError>
        ensures { worker.new ≡ worker.old }
    {
        let mut guard = self.locked.lock(rt);
        let board = &mut *guard;
        let crew = board.crew();
        let news = board.news();
        let Some(key) = board.least() else {
            return Ok(Found::End);
        };
        if worker.doing(&news, Some(key)).is_held_back() {
            if crew.is_working() || news.ready || !worker.has_waited_long() {
                return Ok(Found::Nothing);
            }
            worker.hold(key.try_clone(self.alloc)?)?;
        }
        board.set_crew(crew.with_told(worker.told(), Told::Works));
        worker.tell(Told::Works);
        Ok(Found::Key)
    }

    /// The server begins.
    pub(crate) fn begin_serving<R: Wait>(&self, rt: &R) {
        let mut guard = self.locked.lock(rt);
        let board = &mut *guard;
        board.set_crew(board.crew().with_server());
    }

    /// A worker begins.
    pub(crate) fn enter<R: Wait>(&self, rt: &R) {
        let mut guard = self.locked.lock(rt);
        let board = &mut *guard;
        board.set_crew(board.crew().with_one());
    }

    /// A worker ends, which told this last.
    pub(crate) fn leave<R: Wait>(&self, rt: &R, told: Told) {
        let mut guard = self.locked.lock(rt);
        let board = &mut *guard;
        board.set_crew(board.crew().without_one(told));
    }

    /// Whether a worker is alive.
    pub(crate) fn has_workers<R: Wait>(&self, rt: &R) -> bool {
        self.locked.lock(rt).crew().has_workers()
    }

    /// No open key is given out any more, so all workers end.
    pub(crate) fn close<R: Wait>(&self, rt: &R) {
        self.locked.lock(rt).close();
        self.offers.notify_all();
    }

    /// Takes what comes after the class that was written last, in one moment under the lock. What the row had is dropped.
    pub(crate) fn look<R: Wait>(
        &self,
        rt: &R,
        listing: &Listing<'_>,
        last: &Option<Choice>,
        row: &mut Row,
    ) -> Look
        ensures { IsLook listing.now last.now row.new result }
    {
        row.clear();
        let mut guard = self.locked.lock(rt);
        let board = &mut *guard;
        board.take(listing, last, row)
    }

    /// Whether the tally counts as many settled keys as the board of the pool. It does where it holds every part of the
    /// ledger. The tally stays as it was.
    pub fn totals<R: Wait>(&self, rt: &R, all: &mut Tally<L>) -> bool
        ensures whole { all.old.parts ≡ L.parts → result ≡ true }
        ensures same { all.new ≡ all.old }
    {
        let mut guard = self.locked.lock(rt);
        let board = &mut *guard;
        board.agrees_with(all)
    }
}
