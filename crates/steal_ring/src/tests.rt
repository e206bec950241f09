//! A ring that is used, by one thread and by two, and closed.
ghost use Rattle.std.specs.Prelude.{◌≡◌, ◌∷◌, [], IfOk};
ghost use Rattle.steal_ring.specs.Seats.{IsRing, IsSameSeat};

use crate::{Left, Ring, Seat, close};
use ntfe_model::{Key, List};
use std::alloc::{AllocError, Global};
use std::test::*;
use std::thread;
use std::thread::Threads;

/// How many keys each of two threads pushes.
const MANY: u32 = 100_000;

fn push(alloc: Global, seat: &mut Seat, number: u32) -> bool
    ensures { IsSameSeat seat.old seat.new }
{
    match vec![in alloc; number] {
        Ok(numbers) => seat.push(Key(List::from_vec(numbers))).is_ok(),
        Err(_) => false,
    }
}

fn first(key: &Key) -> u32 {
    match key.0.as_slice() {
        [first, ..] => *first,
        [] => 0,
    }
}

fn pop(seat: &mut Seat) -> Option<u32>
    ensures { IsSameSeat seat.old seat.new }
{
    match seat.pop() {
        Some(key) => Some(first(&key)),
        None => None,
    }
}

fn steal(seat: &mut Seat) -> Option<u32>
    ensures { IsSameSeat seat.old seat.new }
{
    match seat.steal() {
        Some(key) => Some(first(&key)),
        None => None,
    }
}

fn pair(alloc: Global) -> Result<(Seat, Seat), Fail>
    ensures { IfOk result (λ p. IsRing (p.0 ∷ p.1 ∷ [])) }
{
    let mut seats = Ring::seats(alloc, 2)?.into_vec();
    let Some(two) = seats.pop() else {
        return Err("two".into());
    };
    let Some(one) = seats.pop() else {
        return Err("one".into());
    };
    Ok((one, two))
}

fn close_pair(alloc: Global, one: Seat, two: Seat) -> Result<Left, AllocError>
    requires { IsRing (one ∷ two ∷ []) }
{
    let seats = vec![in alloc; one, two]?;
    close(alloc, List::from_vec(seats))
}

fn uses(alloc: Global, one: &mut Seat, two: &mut Seat) -> bool
    ensures one { IsSameSeat one.old one.new }
    ensures two { IsSameSeat two.old two.new }
{
    let pushed = push(alloc, one, 7);
    let pushed_more = push(alloc, one, 8);
    let stolen = steal(two);
    let popped = pop(one);
    let none = pop(one);
    pushed && pushed_more && stolen == Some(7) && popped == Some(8) && none.is_none()
}

#[test]
fn a_key_is_stolen_or_popped(rt: HostRuntime) -> Result<(), Fail> {
    let alloc = rt.alloc();
    let (mut one, mut two) = pair(alloc)?;
    let right = uses(alloc, &mut one, &mut two);
    assert!(rt; right);
    let left = close_pair(alloc, one, two)?;
    assert!(rt; left.keys.as_slice().is_empty());
    assert!(rt; left.pushed == 2 && left.taken == 2);
    Ok(())
}

#[test]
fn a_seat_that_is_alone_steals_from_none(rt: HostRuntime) -> Result<(), Fail> {
    let alloc = rt.alloc();
    let mut seats = Ring::seats(alloc, 1)?.into_vec();
    let mut seat = seats.pop().ok_or("seat")?;
    assert!(rt; push(alloc, &mut seat, 7));
    assert!(rt; steal(&mut seat).is_none());
    Ok(())
}

/// Counts a key.
fn count(counts: &mut [u8], key: Option<u32>) {
    if let Some(number) = key
        && let Some(times) = counts.get_mut(number as usize)
    {
        *times = times.saturating_add(1);
    }
}

/// Pushes a key, then tries to get one, and counts it.
fn turn(alloc: Global, seat: &mut Seat, number: u32, counts: &mut [u8])
    ensures { IsSameSeat seat.old seat.new }
{
    push(alloc, seat, number);
    let key = if number % 3 == 0 {
        steal(seat)
    } else {
        pop(seat)
    };
    count(counts, key);
}

/// Pushes the keys from this number on, gets as many, and counts each that it got.
fn works(alloc: Global, seat: Seat, from: u32, counts: &mut [u8]) -> Seat
    ensures { IsSameSeat seat result }
{
    let mut seat = seat;
    for number in from..from.saturating_add(MANY) {
        turn(alloc, &mut seat, number, counts);
    }
    seat
}

/// The seats after two threads worked at them.
fn work_side_by_side<R: Threads>(
    rt: &R,
    alloc: Global,
    one: Seat,
    two: Seat,
    counts: &mut [u8],
    others: &mut [u8],
) -> (Seat, Seat)
    ensures one { IsSameSeat one result.0 }
    ensures two { IsSameSeat two result.1 }
{
    thread::join(
        rt,
        move || -> Seat
            ensures { IsSameSeat one result }
        { works(alloc, one, 0, counts) },
        move || -> Seat
            ensures { IsSameSeat two result }
        { works(alloc, two, MANY, others) },
    )
}

/// Whether each key was counted once by one of the two.
fn are_counted_once(counts: &[u8], others: &[u8]) -> bool {
    counts
        .iter()
        .zip(others.iter())
        .all(|(a, b)| a.saturating_add(*b) == 1)
}

#[test]
fn two_threads_take_each_key_once(rt: HostRuntime) -> Result<(), Fail> {
    let alloc = rt.alloc();
    let mut counts = vec![in alloc; 0u8; 2 * MANY as usize]?;
    let mut others = vec![in alloc; 0u8; 2 * MANY as usize]?;
    let (one, two) = pair(alloc)?;
    let (one, two) = work_side_by_side(
        &rt,
        alloc,
        one,
        two,
        counts.as_mut_slice(),
        others.as_mut_slice(),
    );
    let left = close_pair(alloc, one, two)?;
    for key in left.keys.as_slice() {
        count(counts.as_mut_slice(), Some(first(key)));
    }
    assert!(rt; left.pushed == 2 * u64::from(MANY));
    assert!(rt; are_counted_once(counts.as_slice(), others.as_slice()));
    Ok(())
}
