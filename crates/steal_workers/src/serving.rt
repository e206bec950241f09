//! The server of a pool, which writes what the workers find.
ghost use Rattle.std.specs.Prelude.{◌≡◌, ◌<◌, ◌≤◌, ◌⊎◌, IfOk, IfErr, IfSome, OnOk, OnErr, Ok, Err, true};
ghost use Rattle.io_edge.specs.Causes.{Rose};
ghost use Rattle.ntfe_model.specs.Keys.{IsStart};
ghost use Rattle.choice_board.specs.Starts.{new_board};
ghost use Rattle.choice_board.specs.States.{IsSound};
ghost use Rattle.steal_workers.specs.Forms.{IsFormOf};
ghost use Rattle.steal_workers.specs.Listings.{HasServed, IsAtLimit, NoneIsLeft, GoesOn, EndsAs};
ghost use Rattle.steal_workers.specs.Pools.{listed_by, probes_of, IsListedBy};
ghost use Rattle.steal_workers.specs.Boards.{IsAbreast, IsPlace};
ghost use Rattle.steal_workers.specs.Tallies.{IsSameTally, IsSameShare};

use crate::listing::Listing;
use crate::look::Look;
use crate::pool::{Found, Pool};
use crate::row::Row;
use crate::served::Served;
use crate::tally::{Stake, Tally};
use crate::worker::Worker;
use crate::writer::{Writer, copied_start};
use choice_board::Board;
use class_text::TextForm;
use io_edge::{Gate, Sink};
use ntfe_model::Choice;
use std::alloc::AllocError;
use std::sync::Wait;
use std::sync::ledger::Ledger;
use std::time::Duration;

/// How many microseconds the server waits for an outcome, unless it is told of one.
const QUIET_MICROS: u64 = 1000;

/// How a turn of the server ends.
#[derive(Clone, Copy, Drop)]
enum Turn {
    More,
    /// Nothing is left, or the limit is reached.
    Done,
    /// The locked board is not the server's own, or is not where the server is.
    Foreign,
}

impl<'g, L: Ledger> Pool<'g, L> {
    /// Writes the blocks of the pool's classes, as worker 0, in order, and answers how that ends, with what it counted.
    /// It writes what the board hands out, row by row, and waits for the workers where nothing can be handed out yet; where none
    /// is alive it probes the least open key itself. Where the locked board is not that of the listing, or another class
    /// was handed out last, it leaves that board and goes on alone, with a board of its own after the last class. At its
    /// end no key is given out any more, so the workers end.
    pub fn serve<R: Wait, K: Sink, G: Gate>(
        &self,
        rt: &R,
        stake: Stake<L>,
        form: &TextForm,
        limit: Option<u32>,
        out: &mut K,
        gate: &G,
    ) -> (Served, Tally<L>)
        requires form { IsFormOf self.now.geometry form.now }
        ensures served { HasServed (listed_by self.now form.now limit) (record { before = K.taken out.old; after = K.taken out.new }) result.0 }
        ensures cause { result.0 ≡ Served.WriteFault → Rose (K.faults out.old) (K.faults out.new) }
        ensures later { K.faults out.old ≤ K.faults out.new }
        ensures worker { result.1.worker ≡ 0 }
        ensures memory { result.0 ≡ Served.Memory → result.1.memory ≡ true }
        ensures parts { result.1.parts ≡ 1 }
    {
        let listing = Listing::new(self.geometry, form, &self.start, limit, self.width);
        let mut mine = Tally::new(0, stake);
        self.begin_serving(rt);
        let served = self.write_or_end(rt, &listing, &mut mine, out, gate);
        if let Served::Memory = served {
            mine.end_for_memory();
        }
        self.close(rt);
        (served, mine)
    }

    /// Writes the listing, and answers how that ends.
    fn write_or_end<R: Wait, K: Sink, G: Gate>(
        &self,
        rt: &R,
        listing: &Listing<'g>,
        mine: &mut Tally<L>,
        out: &mut K,
        gate: &G,
    ) -> Served
        requires own { IsListedBy self.now listing.now }
        requires part { 0 < mine.old.parts }
        ensures served { HasServed listing.now (record { before = K.taken out.old; after = K.taken out.new }) result }
        ensures cause { result ≡ Served.WriteFault → Rose (K.faults out.old) (K.faults out.new) }
        ensures later { K.faults out.old ≤ K.faults out.new }
        ensures tally { IsSameShare mine.old mine.new }
    {
        match self.write_listing(rt, listing, mine, out, gate) {
            Ok(served) => served,
            Err(_) => Served::Memory,
        }
    }

    /// Makes what writes the listing, and writes it. Where memory is short for that, nothing is written.
    fn write_listing<R: Wait, K: Sink, G: Gate>(
        &self,
        rt: &R,
        listing: &Listing<'g>,
        mine: &mut Tally<L>,
        out: &mut K,
        gate: &G,
    ) -> Result<Served, AllocError>
        requires own { IsListedBy self.now listing.now }
        requires part { 0 < mine.old.parts }
        ensures served { IfOk result (HasServed listing.now (record { before = K.taken out.old; after = K.taken out.new })) }
        ensures none { OnErr result (K.taken out.new ≡ K.taken out.old) }
        ensures cause { result ≡ Ok Served.WriteFault → Rose (K.faults out.old) (K.faults out.new) }
        ensures later { K.faults out.old ≤ K.faults out.new }
        ensures tally { IsSameShare mine.old mine.new }
    {
        let mut writer = Writer::new(self.alloc, listing)?;
        let mut row = Row::new(self.alloc)?;
        match self.write_outcomes(rt, &mut writer, &mut row, mine, out, gate) {
            Ok(()) => Ok(writer.finish()),
            Err(served) => Ok(served),
        }
    }

    /// Writes what the board hands out, row by row, until nothing is left or the limit is reached. Where the board is not the
    /// server's own, it goes on alone.
    fn write_outcomes<R: Wait, K: Sink, G: Gate>(
        &self,
        rt: &R,
        writer: &mut Writer<'_, 'g>,
        row: &mut Row,
        mine: &mut Tally<L>,
        out: &mut K,
        gate: &G,
    ) -> Result<(), Served>
        requires own { IsListedBy self.now writer.old.listed }
        requires place { IsPlace writer.old.listed writer.old.last }
        requires part { 0 < mine.old.parts }
        ensures listed { writer.new.listed ≡ writer.old.listed }
        ensures on { OnOk result (GoesOn writer.old writer.new (record { before = K.taken out.old; after = K.taken out.new })) }
        ensures done { OnOk result (IsAtLimit writer.new.listed.limit writer.new.count ⊎ NoneIsLeft writer.new.listed.geometry writer.new.last) }
        ensures ends { IfErr result (EndsAs writer.old (record { before = K.taken out.old; after = K.taken out.new })) }
        ensures cause { result ≡ Err Served.WriteFault → Rose (K.faults out.old) (K.faults out.new) }
        ensures later { K.faults out.old ≤ K.faults out.new }
        ensures tally { IsSameShare mine.old mine.new }
    {
        let mut helper = None;
        let mut turn = 0_u64;
        for _ in rt.forever() {
            gate.at(0, turn);
            turn = turn.saturating_add(1);
            match self.serve_turn(rt, writer, row, &mut helper, mine, out)? {
                Turn::More => {}
                Turn::Done => return Ok(()),
                Turn::Foreign => {
                    mine.leave_board();
                    return self.go_on_alone(writer, out);
                }
            }
        }
        unreachable!()
    }

    /// One turn of the server: it takes a row of outcomes under the lock of the pool, and writes it outside. Where the limit is
    /// reached within the row, the rest of it is lost, so the full writer comes first.
    fn serve_turn<'s, R: Wait, K: Sink>(
        &'s self,
        rt: &R,
        writer: &mut Writer<'_, 'g>,
        row: &mut Row,
        helper: &mut Option<Worker<'s, 'g>>,
        mine: &mut Tally<L>,
        out: &mut K,
    ) -> Result<Turn, Served>
        requires own { IsListedBy self.now writer.old.listed }
        requires place { IsPlace writer.old.listed writer.old.last }
        requires helper { IfSome helper.old (λ w. w ≡ probes_of self.now) }
        requires part { 0 < mine.old.parts }
        ensures listed { writer.new.listed ≡ writer.old.listed }
        ensures on { OnOk result (GoesOn writer.old writer.new (record { before = K.taken out.old; after = K.taken out.new })) }
        ensures done { IfOk result (λ t. t ≡ Turn.Done → IsAtLimit writer.new.listed.limit writer.new.count ⊎ NoneIsLeft writer.new.listed.geometry writer.new.last) }
        ensures place { OnOk result (IsPlace writer.new.listed writer.new.last) }
        ensures ends { IfErr result (EndsAs writer.old (record { before = K.taken out.old; after = K.taken out.new })) }
        ensures cause { result ≡ Err Served.WriteFault → Rose (K.faults out.old) (K.faults out.new) }
        ensures later { K.faults out.old ≤ K.faults out.new }
        ensures tally { IsSameTally mine.old mine.new }
        ensures helper { IfSome helper.new (λ w. w ≡ probes_of self.now) }
    {
        if writer.is_full() {
            return Ok(Turn::Done);
        }
        let seen = self.outcomes.notifications();
        match self.look(rt, writer.listing(), writer.last(), row) {
            Look::Row => {
                writer.write_row(row, out)?;
                return Ok(Turn::More);
            }
            Look::Done => return Ok(Turn::Done),
            Look::Foreign => return Ok(Turn::Foreign),
            Look::Waiting => {}
        }
        self.wait_or_help(rt, seen, helper, mine)?;
        Ok(Turn::More)
    }

    /// Waits for an outcome; where no worker is alive, probes the least open key.
    fn wait_or_help<'s, R: Wait>(
        &'s self,
        rt: &R,
        seen: u64,
        helper: &mut Option<Worker<'s, 'g>>,
        mine: &mut Tally<L>,
    ) -> Result<(), Served>
        requires helper { IfSome helper.old (λ w. w ≡ probes_of self.now) }
        requires part { 0 < mine.old.parts }
        ensures helper { IfSome helper.new (λ w. w ≡ probes_of self.now) }
        ensures tally { IsSameTally mine.old mine.new }
        ensures cause { IfErr result (λ s. s ≡ Served.Memory) }
    {
        if self.has_workers(rt) {
            self.outcomes
                .sleep(rt, seen, Duration::from_micros(QUIET_MICROS));
            return Ok(());
        }
        match self.help(rt, helper, mine) {
            Ok(()) => Ok(()),
            Err(_) => Err(Served::Memory),
        }
    }

    /// Probes and settles the least open key, and some of those that it opens.
    fn help<'s, R: Wait>(
        &'s self,
        rt: &R,
        helper: &mut Option<Worker<'s, 'g>>,
        mine: &mut Tally<L>,
    ) -> Result<(), AllocError>
        requires helper { IfSome helper.old (λ w. w ≡ probes_of self.now) }
        requires part { 0 < mine.old.parts }
        ensures helper { IfSome helper.new (λ w. w ≡ probes_of self.now) }
        ensures tally { IsSameTally mine.old mine.new }
    {
        if helper.is_none() {
            *helper = Some(Worker::new(self.alloc, self.geometry, &self.shelf, self.width)?);
        }
        let Some(worker) = helper else {
            return Ok(());
        };
        self.help_as(rt, worker, mine)
    }

    /// Probes and settles the least open key, and some of those that it opens; the worker holds none of them.
    fn help_as<'s, R: Wait>(
        &'s self,
        rt: &R,
        worker: &mut Worker<'s, 'g>,
        mine: &mut Tally<L>,
    ) -> Result<(), AllocError>
        requires worker { worker.old ≡ probes_of self.now }
        requires part { 0 < mine.old.parts }
        ensures worker { worker.new ≡ worker.old }
        ensures tally { IsSameTally mine.old mine.new }
    {
        if let Found::Key = self.least_key(rt, worker)? {
            worker.work(rt, &self.store)?;
            worker.forget();
            self.settle_found(rt, worker, mine)?;
        }
        Ok(())
    }

    /// A new board that begins after the last class.
    fn board_after(&self, last: &Option<Choice>) -> Result<Board, AllocError>
        requires near { IsStart self.now.geometry last.now }
        ensures value { IfOk result (λ b. b ≡ new_board self.now.geometry last.now) }
        ensures sound { IfOk result IsSound }
    {
        let start = copied_start(self.alloc, last)?;
        Board::new(self.alloc, self.geometry.try_clone(self.alloc)?, start)
    }

    /// Goes on after the last class with a board of its own, as the listing on one thread does.
    fn go_on_alone<K: Sink>(&self, writer: &mut Writer<'_, 'g>, out: &mut K) -> Result<(), Served>
        requires own { IsListedBy self.now writer.old.listed }
        requires place { IsPlace writer.old.listed writer.old.last }
        ensures listed { writer.new.listed ≡ writer.old.listed }
        ensures on { OnOk result (GoesOn writer.old writer.new (record { before = K.taken out.old; after = K.taken out.new })) }
        ensures done { OnOk result (IsAtLimit writer.new.listed.limit writer.new.count ⊎ NoneIsLeft writer.new.listed.geometry writer.new.last) }
        ensures ends { IfErr result (EndsAs writer.old (record { before = K.taken out.old; after = K.taken out.new })) }
        ensures cause { result ≡ Err Served.WriteFault → Rose (K.faults out.old) (K.faults out.new) }
        ensures later { K.faults out.old ≤ K.faults out.new }
    {
        match self.board_after(writer.last()) {
            Ok(mut board) => self.list_on(writer, &mut board, out),
            Err(_) => Err(Served::Memory),
        }
    }

    /// Goes on with the listing with this board.
    fn list_on<K: Sink>(
        &self,
        writer: &mut Writer<'_, 'g>,
        board: &mut Board,
        out: &mut K,
    ) -> Result<(), Served>
        requires own { IsListedBy self.now writer.old.listed }
        requires abreast { IsAbreast writer.old board.old }
        ensures listed { writer.new.listed ≡ writer.old.listed }
        ensures on { OnOk result (GoesOn writer.old writer.new (record { before = K.taken out.old; after = K.taken out.new })) }
        ensures done { OnOk result (IsAtLimit writer.new.listed.limit writer.new.count ⊎ NoneIsLeft writer.new.listed.geometry writer.new.last) }
        ensures ends { IfErr result (EndsAs writer.old (record { before = K.taken out.old; after = K.taken out.new })) }
        ensures cause { result ≡ Err Served.WriteFault → Rose (K.faults out.old) (K.faults out.new) }
        ensures later { K.faults out.old ≤ K.faults out.new }
    {
        match Worker::new(self.alloc, self.geometry, &self.shelf, self.width) {
            Ok(mut worker) => worker.list_on(writer, board, out),
            Err(_) => Err(Served::Memory),
        }
    }
}
