//! The pool of workers: that one works beside a server that is held, what they count, that one comes to its end with no server,
//! and that two that meet at a gate write the same bytes.
ghost use Rattle.std.specs.Prelude.{◌≡◌, [], ◌∷◌, map, IfOk, IfSome};
ghost use Rattle.std.specs.List.{range_with_len};
ghost use Rattle.steal_ring.specs.Seats.{IsRing, IsSameSeat};
ghost use Rattle.steal_workers.specs.Forms.{IsFormOf};

use crate::commands::classes::text_form;
use crate::tests::gates::{HeldServer, Mark, Meeting};
use crate::tests::layers::geometry;
use crate::tests::pairs::TT;
use crate::tests::refusals::{GOOD_DAY, ended, ended_behind};
use class_text::TextForm;
use io_edge::{Gate, MemorySink, OpenGate};
use ntfe_model::{Geometry, Key, List, Push};
use ntfe_words::Options;
use std::alloc::{AllocError, Global};
use std::marker::Brand;
use std::sync::Wait;
use std::sync::ledger::{Blank, Ledger};
use std::thread;
use std::thread::Threads;
use steal_ring::{Seat, close};
use steal_workers::{Pool, Served, Stake, Tally};

/// What the text of the classes depends on.
fn form_of(alloc: Global, geometry: &Geometry) -> Result<TextForm, AllocError>
    ensures { IfOk result (λ f. IsFormOf geometry.now f) }
{
    let options = Options {
        workers: 1,
        limit: None,
        width: 62,
        push: Push::Up,
        stars: false,
    };
    text_form(alloc, &options, geometry, 0)
}

/// The last class of the product of two triangles.
const LAST_CHOICE: [u32; 15] = [0, 0, 1, 1, 1, 0, 1, 1, 1, 1, 1, 1, 0, 0, 0];

/// What a worker and a server beside it hand back.
type Ended<L> = (Option<(Seat, Tally<L>)>, Option<(Served, Tally<L>)>);

/// Lets a worker work in a thread of its own beside the server.
fn work_and_serve<L: Ledger + Send + Sync, R: Threads + Wait + Sync, G: Gate + Sync>(
    rt: &R,
    pool: &Pool<'_, L>,
    job: (Seat, Stake<L>),
    stake: Stake<L>,
    form: &TextForm,
    out: &mut MemorySink,
    gate: &G,
) -> Ended<L>
    requires { IsFormOf pool.now.geometry form.now }
{
    let mut job = Some(job);
    let mut stake = Some(stake);
    thread::join_mut(
        rt,
        &mut move || -> Option<(Seat, Tally<L>)> {
            let (seat, stake) = job.take()?;
            Some(pool.work(rt, seat, stake, gate))
        },
        &mut || -> Option<(Served, Tally<L>)>
            requires { IsFormOf pool.now.geometry form.now }
        {
            let stake = stake.take()?;
            Some(pool.serve(rt, stake, form, None, out, gate))
        },
    )
}

/// Whether all classes of the product of two triangles were written.
fn is_all(served: &Served) -> bool {
    match served {
        Served::End {
            count: 102,
            last: Some(choice),
        } => choice.0.as_slice() == LAST_CHOICE.as_slice(),
        _ => false,
    }
}

/// Whether the worker settled keys beside the server, and the pool knows its total from both tallies, but not from the server's.
fn are_counted<L: Ledger, R: Wait>(
    rt: &R,
    pool: &Pool<'_, L>,
    server: Tally<L>,
    worker: Tally<L>,
) -> bool {
    let mut server = server;
    let apart = pool.totals(rt, &mut server);
    let is_first = worker.worker() == 1 && worker.settled() >= 1;
    let is_beside = !server.alone() && !server.memory() && !worker.memory();
    let mut both = server.join(worker);
    let together = pool.totals(rt, &mut both);
    is_first && is_beside && !apart && together
}

/// Whether the server wrote all classes, and the worker settled keys beside it.
fn is_whole<L: Ledger, R: Wait>(rt: &R, pool: &Pool<'_, L>, ended: Ended<L>) -> bool {
    let (worked, served) = ended;
    let (Some(worked), Some(served)) = (worked, served) else {
        return false;
    };
    let (_seat, worker) = worked;
    let (served, server) = served;
    is_all(&served) && are_counted(rt, pool, server, worker)
}

/// Whether a worker beside a held server works, and all is counted.
fn works_beside<L: Ledger + Send + Sync, R: Threads + Wait + Sync>(
    rt: &R,
    alloc: Global,
    out: &mut MemorySink,
    settled: Blank,
) -> Result<bool, AllocError>
    requires name { settled.name ≡ L.name }
    requires whole { settled.parts ≡ L.parts }
    requires parts { settled.parts ≡ 2 }
{
    let geometry = geometry(alloc, TT)?;
    let form = form_of(alloc, &geometry)?;
    let (pool, seats, stakes) = Pool::<L>::new(alloc, &geometry, None, 62, 1, settled)?;
    let mut seats = seats.into_vec();
    let mut stakes = stakes.into_vec();
    let (Some(seat), Some(mine), Some(theirs)) = (seats.pop(), stakes.pop(), stakes.pop()) else {
        return Ok(false);
    };
    let gate = HeldServer {
        worker: Mark::new(),
        gave_up: Mark::new(),
    };
    let ended = work_and_serve(rt, &pool, (seat, theirs), mine, &form, out, &gate);
    Ok(is_whole(rt, &pool, ended) && !gate.gave_up.has_come())
}

#[test]
fn a_worker_beside_a_server_that_is_held(rt: HostRuntime) -> Result<(), AllocError> {
    let mut out = MemorySink::new(rt.alloc(), 100000, Vec::new(rt.alloc()))?;
    assert!(rt; works_beside::<Brand, HostRuntime>(&rt, rt.alloc(), &mut out, Blank::new(2))?);
    let lines = out.bytes().iter().filter(|byte| **byte == b'\n').count();
    assert!(rt; lines == 204);
    Ok(())
}

/// The two seats of a ring.
fn pair_of(seats: List<Seat>) -> Option<(Seat, Seat)>
    requires ring { IsRing seats }
    requires numbers { map (λ s. s.number) seats ≡ range_with_len 1 2 }
    ensures { IfSome result (λ p. IsRing (p.0 ∷ p.1 ∷ [])) }
{
    let mut seats = seats.into_vec();
    let Some(second) = seats.pop() else {
        return None;
    };
    let Some(first) = seats.pop() else {
        return None;
    };
    Some((first, second))
}

/// Pushes the key of item 0 of the first two-face.
fn push_first_key(alloc: Global, seat: &mut Seat) -> Result<bool, AllocError>
    ensures { IsSameSeat seat.old seat.new }
{
    let key = Key(List::from_vec(vec![in alloc; 0u32]?));
    Ok(seat.push(key).is_ok())
}

/// Whether each key of the ring was taken, at least two in all.
fn is_used_up(alloc: Global, first: Seat, second: Seat) -> Result<bool, AllocError>
    requires { IsRing (first ∷ second ∷ []) }
{
    let seats = vec![in alloc; first, second]?;
    let left = close(alloc, List::from_vec(seats))?;
    Ok(left.keys.as_slice().is_empty() && left.pushed == left.taken && left.taken >= 2)
}

/// Whether the first worker, with no server, comes to the end and takes each key of the ring, in which the second seat has one.
fn comes_to_the_end<L: Ledger, R: Wait>(
    rt: &R,
    alloc: Global,
    pool: &Pool<'_, L>,
    seats: (Seat, Seat),
    stake: Stake<L>,
) -> Result<bool, AllocError>
    requires { IsRing (seats.0 ∷ seats.1 ∷ []) }
{
    let (first, mut second) = seats;
    let pushed = push_first_key(alloc, &mut second)?;
    let (first, tally) = pool.work(rt, first, stake, &OpenGate);
    let counted = !tally.memory() && tally.blocked() >= 10;
    Ok(is_used_up(alloc, first, second)? && pushed && counted)
}

/// Whether a worker with no server settles all, over a ring in which another seat has a key.
fn works_alone<L: Ledger, R: Wait>(
    rt: &R,
    alloc: Global,
    settled: Blank,
) -> Result<bool, AllocError>
    requires name { settled.name ≡ L.name }
    requires whole { settled.parts ≡ L.parts }
    requires parts { settled.parts ≡ 3 }
{
    let geometry = geometry(alloc, TT)?;
    let (pool, seats, stakes) = Pool::<L>::new(alloc, &geometry, None, 62, 2, settled)?;
    let Some(stake) = stakes.into_vec().pop() else {
        return Ok(false);
    };
    let Some(seats) = pair_of(seats) else {
        return Ok(false);
    };
    comes_to_the_end(rt, alloc, &pool, seats, stake)
}

#[test]
fn a_worker_with_no_server(rt: HostRuntime) -> Result<(), AllocError> {
    assert!(rt; works_alone::<Brand, HostRuntime>(&rt, rt.alloc(), Blank::new(3))?);
    Ok(())
}

/// Whether a run with these words writes this text.
fn writes<R: Threads + Wait + Sync, G: Gate + Sync>(
    rt: &R,
    alloc: Global,
    words: &[&str],
    text: &[u8],
    gate: &G,
) -> Result<bool, AllocError> {
    let all = ended_behind(rt, alloc, words, TT.as_bytes(), &GOOD_DAY, gate)?;
    Ok(all.code == 0 && all.out.bytes() == text)
}

/// Whether two workers that wait for each other write this text.
fn meets<R: Threads + Wait + Sync>(rt: &R, alloc: Global, text: &[u8]) -> Result<bool, AllocError> {
    let gate = Meeting {
        first: Mark::new(),
        second: Mark::new(),
        gave_up: Mark::new(),
    };
    let wrote = writes(rt, alloc, &["classes", "--workers", "2"], text, &gate)?;
    let met = gate.first.has_come() && gate.second.has_come() && !gate.gave_up.has_come();
    Ok(wrote && met)
}

#[test]
fn the_same_bytes_with_any_number_of_workers(rt: HostRuntime) -> Result<(), AllocError> {
    let alloc = rt.alloc();
    let alone = ended(&rt, alloc, &["classes"], TT.as_bytes(), &GOOD_DAY)?;
    let text = alone.out.bytes();
    assert!(rt; text.ends_with(b"\nend 102\n"));
    assert!(rt; writes(&rt, alloc, &["classes", "--workers", "2"], text, &OpenGate)?);
    assert!(rt; writes(&rt, alloc, &["classes", "--workers", "8"], text, &OpenGate)?);
    assert!(rt; meets(&rt, alloc, text)?);
    Ok(())
}
