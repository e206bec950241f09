//! What a worker of a pool has for itself: the keys that it is to work, what it probes them with, and what it found.
ghost use Rattle.std.specs.Prelude.{◌≡◌, ◌<◌, ◌≤◌, ◌⊎◌, ◌↔◌, All, IfOk, IfErr, OnOk, Err, IsTrue};
ghost use Rattle.io_edge.specs.Causes.{Rose};
ghost use Rattle.ntfe_model.specs.Keys.{IsKey};
ghost use Rattle.steal_workers.specs.Boards.{IsAbreast};
ghost use Rattle.steal_workers.specs.Listings.{IsAtLimit, NoneIsLeft, GoesOn, EndsAs};
ghost use Rattle.steal_workers.specs.Tallies.{IsSameTally};
ghost use Rattle.steal_workers.specs.Shared.{IsSameListing};

use crate::alone::list_all;
use crate::crew::{News, Told};
use crate::found_keys::{FoundKey, settle_all};
use crate::probing::Prober;
use crate::served::Served;
use crate::shared_board::SharedBoard;
use crate::sizes::Sizes;
use crate::tally::Tally;
use crate::writer::Writer;
use choice_board::{Board, Verdict};
use io_edge::Sink;
use nogood_set::NogoodSet;
use nogood_store::{Reader, Store};
use ntfe_model::{Geometry, ITEM_LIMIT, Key};
use shared_stream::{Shelf, ShelfBook};
use std::alloc::{AllocError, Global};
use std::cmp::Ordering;
use std::collections::VecDeque;
use std::marker::Model;
use std::sync::Wait;
use std::sync::ledger::Ledger;

/// The most parts of a certificate that is shared with the other workers.
const SHARED_PARTS: usize = 4;

/// The most certificates that one worker shares.
const SHARED_MOST: u32 = 64;

/// The most keys that are worked in one turn.
const TURN_MOST: u32 = 32;

/// About so many classes at least lie under a key that is offered to others.
const OFFERED_LEAST: u64 = 4;

/// A key is offered where about so many times what lies under it may be found.
const OFFERED_PART: u64 = 4;

/// How often a worker is held back while no worker works, until it takes the least open key.
const WAITS_MOST: u32 = 50;

/// What a worker has for itself.
#[derive(Drop)]
pub struct Worker<'s, 'g> {
    alloc: Global,
    geometry: &'g Geometry,
    prober: Prober<'g>,
    book: ShelfBook<'s>,
    set: NogoodSet<'s>,
    reader: Reader,
    /// How many certificates it shared.
    shared: u32,
    sizes: Sizes,
    /// The keys that it is to work, the next one last.
    held: Vec<Key>,
    found: VecDeque<FoundKey>,
    /// How many keys it works in its next turn.
    turn: u32,
    /// What it told last of itself on the board of its pool.
    told: Told,
    /// How often it was held back since it worked last, while no worker worked.
    waits: u32,
}

impl<'s, 'g> Model for Worker<'s, 'g> {
    ghost use Rattle.steal_workers.specs.Probing.{Probes};
    ghost use Rattle.steal_workers.specs.Workers.{IsWorker};

    ghost Value = { Probes };

    ghost view = { λ w. w.prober };

    ghost invariant = { λ w. IsWorker w.prober w.geometry.now w.book.shape w.set w.found.items };
}

/// Whether all the numbers are below the item limit.
fn are_below_limit(numbers: &[u32]) -> bool
    ensures { IsTrue result ↔ All (λ n. n < 1_048_576) numbers.now }
{
    numbers.iter().all(|n| *n < ITEM_LIMIT)
}

/// Whether the numbers are a key of the geometry.
fn is_key(key: &Key, geometry: &Geometry) -> bool
    ensures { IsTrue result → IsKey geometry.now key.now }
{
    let numbers = key.0.as_slice();
    if numbers.is_empty() || numbers.len() > geometry.faces().len() {
        return false;
    }
    let stem = numbers.len() - 1;
    numbers[stem] <= ITEM_LIMIT && are_below_limit(&numbers[..stem])
}

/// Takes the first of the keys but the last that is known to be neither too small nor too large to be offered to others.
fn take_offered(held: &mut Vec<Key>, sizes: &Sizes, room: u64) -> Option<Key> {
    let spare = held.len().saturating_sub(1);
    for place in 0..spare {
        if let Some(size) = sizes.under(&held[place]) {
            if size >= OFFERED_LEAST && size <= room / OFFERED_PART {
                return Some(held.remove(place));
            }
        }
    }
    None
}

impl<'s, 'g> Worker<'s, 'g> {
    /// A worker that holds no key. Its items are lent from the shelf. The width is from 1 to 62.
    ///
    /// # Errors
    /// `AllocError` where memory is short.
    pub fn new(
        alloc: Global,
        geometry: &'g Geometry,
        shelf: &'s Shelf,
        width: u8,
    ) -> Result<Worker<'s, 'g>, AllocError>
        requires shelf { shelf.now ≡ geometry.now }
        requires low { 1 ≤ width }
        requires high { width ≤ 62 }
        ensures { IfOk result (λ w. w ≡ record { geometry = geometry.now; width = width }) }
    {
        let prober = Prober::new(alloc, geometry, width)?;
        let book = ShelfBook::new(alloc, shelf, geometry)?;
        let sizes = Sizes::new(alloc, geometry)?;
        Ok(Worker {
            alloc,
            geometry,
            prober,
            book,
            set: NogoodSet::new(alloc),
            reader: Reader::new(alloc),
            shared: 0,
            sizes,
            held: Vec::new(alloc),
            found: VecDeque::new(alloc),
            turn: 1,
            told: Told::Idle,
            waits: 0,
        })
    }

    /// Takes over the certificates that were shared since the last time.
    ///
    /// # Errors
    /// `AllocError` where memory is short.
    pub fn refresh(&mut self, store: &'s Store) -> Result<(), AllocError>
        ensures { self.new ≡ self.old }
    {
        store.refresh(
            &mut self.reader,
            self.geometry,
            &mut self.book,
            &mut self.set,
        )?;
        Ok(())
    }

    /// Whether it holds no key.
    pub fn is_idle(&self) -> bool {
        self.held.is_empty()
    }

    /// What it told last of itself on the board of its pool.
    pub fn told(&self) -> Told {
        self.told
    }

    /// It tells this of itself.
    pub fn tell(&mut self, told: Told)
        ensures { self.new ≡ self.old }
    {
        self.told = told;
        self.waits = 0;
    }

    /// Whether it was held back for long while no worker worked. It counts this time too.
    pub fn has_waited_long(&mut self) -> bool
        ensures { self.new ≡ self.old }
    {
        self.waits = self.waits.saturating_add(1);
        self.waits > WAITS_MOST
    }

    /// What it does next, where this is the least open key. It is held back where no more classes may be found, but
    /// for the one that holds the least open key while nothing can be handed out.
    pub fn doing(&self, news: &News, least: Option<&Key>) -> Told {
        let Some(next) = self.held.last() else {
            return Told::Idle;
        };
        if news.room > 0 {
            return Told::Works;
        }
        match least {
            Some(key) if !news.ready && key.0.as_slice() == next.0.as_slice() => Told::Works,
            _ => Told::HeldBack,
        }
    }

    /// The key that it works next.
    pub fn next_key(&self) -> Option<&Key> {
        self.held.last()
    }

    /// Whether the key comes before the one that it works next, or it holds none.
    pub fn comes_first(&self, key: &Key) -> bool {
        match self.held.last() {
            Some(next) => key.0.as_slice().cmp(next.0.as_slice()) == Ordering::Less,
            None => true,
        }
    }

    /// Holds the key, which is worked next.
    ///
    /// # Errors
    /// `AllocError` where memory is short. The key is dropped.
    pub fn hold(&mut self, key: Key) -> Result<(), AllocError>
        ensures { self.new ≡ self.old }
    {
        self.held.push(key)?;
        Ok(())
    }

    /// Drops the keys that it holds.
    pub fn forget(&mut self)
        ensures { self.new ≡ self.old }
    {
        self.held.clear();
    }

    /// A held key for others: the shortest that has not too much under it.
    pub fn offered(&mut self, room: u64) -> Option<Key>
        ensures { self.new ≡ self.old }
    {
        take_offered(&mut self.held, &self.sizes, room)
    }

    /// How many probes were ended by a certificate of the set.
    pub fn blocked(&self) -> u64 {
        self.prober.blocked()
    }

    /// Works keys that it holds, depth first: one in its first turn, and then twice as many in each turn, up to 32.
    ///
    /// # Errors
    /// `AllocError` where memory is short.
    pub fn work<R: Wait>(&mut self, rt: &R, store: &Store) -> Result<(), AllocError>
        ensures { self.new ≡ self.old }
    {
        let most = self.turn;
        for _key in 0..most {
            self.work_next(rt, store)?;
        }
        self.turn = most.saturating_mul(2).min(TURN_MOST);
        Ok(())
    }

    /// Works the key that it held last, if it holds one. A key that is none of the geometry is dropped.
    fn work_next<R: Wait>(&mut self, rt: &R, store: &Store) -> Result<(), AllocError>
        ensures { self.new ≡ self.old }
    {
        let Some(key) = self.held.pop() else {
            return Ok(());
        };
        if !is_key(&key, self.geometry) {
            return Ok(());
        }
        let before = self.prober.blocked();
        let verdict = self.prober.find(&key, &mut self.book, &self.set)?;
        self.share(rt, store, before, &verdict);
        self.hold_opened(&key, &verdict)?;
        self.sizes.count(&key, matches!(verdict, Verdict::Class(_)));
        self.found.push_back(FoundKey { key, verdict })?;
        Ok(())
    }

    /// Holds what the verdict opens, so that the least is worked next.
    fn hold_opened(&mut self, key: &Key, verdict: &Verdict) -> Result<(), AllocError>
        requires { IsKey self.old.geometry key.now }
        ensures { self.new ≡ self.old }
    {
        let mut opened = verdict.opened(self.alloc, key)?.into_vec();
        opened.reverse();
        self.held.append(&mut opened)
    }

    /// Pushes a certificate that was found to the store, if it is a short one, and was not taken from the set: then
    /// more probes than before were ended by the set.
    fn share<R: Wait>(&mut self, rt: &R, store: &Store, blocked: u64, verdict: &Verdict)
        ensures { self.new ≡ self.old }
    {
        let Verdict::Pruned(nogood) = verdict else {
            return;
        };
        let taken = self.prober.blocked() != blocked;
        if taken || self.shared >= SHARED_MOST || nogood.parts.as_slice().len() > SHARED_PARTS {
            return;
        }
        let Ok(copy) = nogood.try_clone(self.alloc) else {
            return;
        };
        self.shared += 1;
        let _ = store.push(rt, copy);
    }

    /// Settles what it found on the board of its pool. Where a key was not open any more, the keys that it holds may
    /// be worked by others, and it drops them.
    ///
    /// # Errors
    /// `AllocError` where memory is short. What was settled until then stays so.
    pub fn settle_on<L: Ledger>(
        &mut self,
        board: &mut SharedBoard<L>,
        mine: &mut Tally<L>,
    ) -> Result<(), AllocError>
        requires geometry { board.old.board.geometry ≡ self.old.geometry }
        requires width { board.old.width ≡ self.old.width }
        requires part { 0 < mine.old.parts }
        ensures same { self.new ≡ self.old }
        ensures listing { IsSameListing board.old board.new }
        ensures tally { IsSameTally mine.old mine.new }
    {
        if !settle_all(board, &mut self.found, mine)? {
            self.held.clear();
        }
        Ok(())
    }

    /// Goes on with a listing on one thread: the least open key of the board is probed and settled, and what the board
    /// has ready is written. The keys that the worker holds take no part in that.
    pub fn list_on<K: Sink>(
        &mut self,
        writer: &mut Writer<'_, '_>,
        board: &mut Board,
        out: &mut K,
    ) -> Result<(), Served>
        requires geometry { self.old.geometry ≡ writer.old.listed.geometry }
        requires width { self.old.width ≡ writer.old.listed.width }
        requires abreast { IsAbreast writer.old board.old }
        ensures listed { writer.new.listed ≡ writer.old.listed }
        ensures on { OnOk result (GoesOn writer.old writer.new (record { before = K.taken out.old; after = K.taken out.new })) }
        ensures done { OnOk result (IsAtLimit writer.new.listed.limit writer.new.count ⊎ NoneIsLeft writer.new.listed.geometry writer.new.last) }
        ensures ends { IfErr result (EndsAs writer.old (record { before = K.taken out.old; after = K.taken out.new })) }
        ensures cause { result ≡ Err Served.WriteFault → Rose (K.faults out.old) (K.faults out.new) }
        ensures later { K.faults out.old ≤ K.faults out.new }
    {
        list_all(
            writer,
            &mut self.prober,
            &mut self.book,
            &self.set,
            board,
            out,
        )
    }
}
