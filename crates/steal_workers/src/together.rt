//! The listing with workers beside the server.
ghost use Rattle.std.specs.Prelude.{◌≡◌, ◌≤◌, ◌+◌, IfOk, OnErr, Ok};
ghost use Rattle.io_edge.specs.Causes.{Rose};
ghost use Rattle.steal_workers.specs.Listings.{HasServed};
ghost use Rattle.steal_workers.specs.Forms.{IsFormOf};
ghost use Rattle.steal_workers.specs.Pools.{listed_by};

use crate::listing::Listing;
use crate::pool::Pool;
use crate::served::Served;
use crate::tally::{Stake, Tally};
use crate::writer::copied_start;
use class_text::TextForm;
use io_edge::{Gate, Sink};
use ntfe_model::List;
use std::alloc::{AllocError, Global};
use std::marker::Brand;
use std::sync::Wait;
use std::sync::ledger::{Blank, Ledger};
use std::thread;
use std::thread::Threads;
use steal_ring::Seat;

/// What one worker works with.
type Job<L> = (Seat, Stake<L>);

/// Pairs each seat with a stake.
fn jobs_of<L: Ledger>(
    alloc: Global,
    seats: List<Seat>,
    stakes: &mut Vec<Stake<L>>,
) -> Result<Vec<(Seat, Stake<L>)>, AllocError> {
    let mut seats = seats.into_vec();
    let mut jobs = Vec::with_capacity(alloc, seats.len())?;
    while let Some(seat) = seats.pop() {
        let Some(stake) = stakes.pop() else {
            break;
        };
        jobs.push((seat, stake))?;
    }
    Ok(jobs)
}

/// Runs the workers, each in a thread of its own where one can be started.
fn work_all<L: Ledger + Send + Sync, R: Threads + Wait + Sync, G: Gate + Sync>(
    rt: &R,
    pool: &Pool<'_, L>,
    jobs: Vec<(Seat, Stake<L>)>,
    gate: &G,
) -> Result<(), AllocError> {
    let _done = thread::map_vec(
        rt,
        jobs,
        &|job: (Seat, Stake<L>)| -> (Seat, Tally<L>) {
            let (seat, stake) = job;
            pool.work(rt, seat, stake, gate)
        },
    )?;
    Ok(())
}

/// Runs the workers beside the server, which writes.
fn serve_beside<L: Ledger + Send + Sync, R: Threads + Wait + Sync, K: Sink, G: Gate + Sync>(
    rt: &R,
    pool: &Pool<'_, L>,
    jobs: Vec<(Seat, Stake<L>)>,
    stake: Stake<L>,
    form: &TextForm,
    limit: Option<u32>,
    out: &mut K,
    gate: &G,
) -> Served
    requires form { IsFormOf pool.now.geometry form.now }
    ensures served { HasServed (listed_by pool.now form.now limit) (record { before = K.taken out.old; after = K.taken out.new }) result }
    ensures cause { result ≡ Served.WriteFault → Rose (K.faults out.old) (K.faults out.new) }
    ensures later { K.faults out.old ≤ K.faults out.new }
{
    let mut jobs = Some(jobs);
    let mut stake = Some(stake);
    let (_worked, served) = thread::join_mut(
        rt,
        &mut move || -> Option<Result<(), AllocError>> {
            let jobs = jobs.take()?;
            Some(work_all(rt, pool, jobs, gate))
        },
        &mut || -> Served
            requires { IsFormOf pool.now.geometry form.now }
            ensures served { HasServed (listed_by pool.entry.now form.entry.now limit) (record { before = K.taken out.entry.now; after = K.taken out.exit.now }) result }
            ensures cause { result ≡ Served.WriteFault → Rose (K.faults out.entry.now) (K.faults out.exit.now) }
            ensures later { K.faults out.entry.now ≤ K.faults out.exit.now }
        {
            let Some(stake) = stake.take() else {
                return Served::Memory;
            };
            let (served, _counted) = pool.serve(rt, stake, form, limit, out, gate);
            served
        },
    );
    served
}

/// Makes a pool over a ledger, and lists.
fn with_pool<L: Ledger + Send + Sync, R: Threads + Wait + Sync, K: Sink, G: Gate + Sync>(
    rt: &R,
    alloc: Global,
    listing: &Listing<'_>,
    workers: u16,
    out: &mut K,
    gate: &G,
    settled: Blank,
) -> Result<Served, AllocError>
    requires some { 1 ≤ workers }
    requires few { workers ≤ 16 }
    requires name { settled.name ≡ L.name }
    requires whole { settled.parts ≡ L.parts }
    requires parts { settled.parts ≡ workers + 1 }
    ensures served { IfOk result (HasServed listing.now (record { before = K.taken out.old; after = K.taken out.new })) }
    ensures none { OnErr result (K.taken out.new ≡ K.taken out.old) }
    ensures cause { result ≡ Ok Served.WriteFault → Rose (K.faults out.old) (K.faults out.new) }
    ensures later { K.faults out.old ≤ K.faults out.new }
{
    let start = copied_start(alloc, listing.start())?;
    let (pool, seats, stakes) = Pool::<L>::new(
        alloc,
        listing.geometry(),
        start,
        listing.width(),
        workers,
        settled,
    )?;
    let mut stakes = stakes.into_vec();
    let Some(stake) = stakes.pop() else {
        return Err(AllocError);
    };
    let jobs = jobs_of(alloc, seats, &mut stakes)?;
    Ok(serve_beside(
        rt,
        &pool,
        jobs,
        stake,
        listing.form(),
        listing.limit(),
        out,
        gate,
    ))
}

/// Writes the blocks of a listing, with 1 to 16 workers beside the server, and answers how that ends. The blocks are
/// those of [`list_alone`](crate::list_alone), whatever the workers do. A worker that could not be started is run by
/// the caller itself. It may wait.
pub fn list_together<R: Threads + Wait + Sync, K: Sink, G: Gate + Sync>(
    rt: &R,
    alloc: Global,
    listing: &Listing<'_>,
    workers: u16,
    out: &mut K,
    gate: &G,
) -> Served
    requires some { 1 ≤ workers }
    requires few { workers ≤ 16 }
    ensures served { HasServed listing.now (record { before = K.taken out.old; after = K.taken out.new }) result }
    ensures cause { result ≡ Served.WriteFault → Rose (K.faults out.old) (K.faults out.new) }
    ensures later { K.faults out.old ≤ K.faults out.new }
{
    match with_pool::<Brand, R, K, G>(
        rt,
        alloc,
        listing,
        workers,
        out,
        gate,
        Blank::new(u64::from(workers) + 1),
    ) {
        Ok(served) => served,
        Err(_) => Served::Memory,
    }
}
