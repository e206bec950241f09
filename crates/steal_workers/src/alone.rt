//! The listing on one thread: the least open key is probed and settled, and what the board hands out is written at once.
ghost use Rattle.std.specs.Prelude.{◌≡◌, ◌≤◌, ◌⊎◌, false, All, IfOk, IfErr, OnOk, OnErr, Ok, Err};
ghost use Rattle.io_edge.specs.Causes.{Rose};
ghost use Rattle.ntfe_model.specs.Certificates.{IsCertificate};
ghost use Rattle.choice_board.specs.States.{IsSound};
ghost use Rattle.choice_board.specs.Telling.{IsWaiting};
ghost use Rattle.steal_workers.specs.Listings.{HasServed, IsAtLimit, NoneIsLeft, GoesOn, EndsAs};
ghost use Rattle.steal_workers.specs.Boards.{IsAbreast, IsFewer, HasSettledLeast, StaysUnderWay};

use crate::listing::Listing;
use crate::probing::Prober;
use crate::served::Served;
use crate::writer::{Writer, copied_start};
use choice_board::Board;
use io_edge::Sink;
use nogood_set::NogoodSet;
use ntfe_model::Book;
use std::alloc::{AllocError, Global};

/// Writes what the board has ready, until the limit is reached.
fn write_ready<K: Sink>(
    writer: &mut Writer<'_, '_>,
    board: &mut Board,
    out: &mut K,
) -> Result<(), Served>
    requires abreast { IsAbreast writer.old board.old }
    ensures listed { writer.new.listed ≡ writer.old.listed }
    ensures on { OnOk result (GoesOn writer.old writer.new (record { before = K.taken out.old; after = K.taken out.new })) }
    ensures abreast { OnOk result (IsAbreast writer.new board.new) }
    ensures fewer { OnOk result (IsFewer board.old board.new) }
    ensures done { OnOk result (IsAtLimit writer.new.listed.limit writer.new.count ⊎ IsWaiting board.new) }
    ensures ends { IfErr result (EndsAs writer.old (record { before = K.taken out.old; after = K.taken out.new })) }
    ensures cause { result ≡ Err Served.WriteFault → Rose (K.faults out.old) (K.faults out.new) }
    ensures later { K.faults out.old ≤ K.faults out.new }
{
    while !writer.is_full() {
        let Some(outcome) = board.ready() else {
            return Ok(());
        };
        writer.write(outcome, out)?;
    }
    Ok(())
}

/// Probes and settles the least open key; false where no key is open.
fn settle_least<B: Book>(
    prober: &mut Prober<'_>,
    book: &mut B,
    set: &NogoodSet<'_>,
    board: &mut Board,
) -> Result<bool, AllocError>
    requires geometry { board.old.geometry ≡ prober.old.geometry }
    requires book { B.shape book.old ≡ prober.old.geometry }
    requires set { All (IsCertificate prober.old.geometry) set.now }
    requires given_out { board.old.closed ≡ false }
    ensures same { prober.new ≡ prober.old }
    ensures book { B.shape book.new ≡ B.shape book.old }
    ensures settled { IfOk result (HasSettledLeast board.old board.new) }
    ensures under_way { OnOk result (StaysUnderWay prober.old.geometry prober.old.width board.old board.new) }
    ensures sound { IsSound board.new }
{
    let Some(key) = board.least() else {
        return Ok(false);
    };
    let verdict = prober.find(key, book, set)?;
    board.settle_least(verdict)
}

/// Settles the least open key until none is left, and writes what is ready before each, until the
/// limit is reached.
pub fn list_all<B: Book, K: Sink>(
    writer: &mut Writer<'_, '_>,
    prober: &mut Prober<'_>,
    book: &mut B,
    set: &NogoodSet<'_>,
    board: &mut Board,
    out: &mut K,
) -> Result<(), Served>
    requires abreast { IsAbreast writer.old board.old }
    requires geometry { prober.old.geometry ≡ writer.old.listed.geometry }
    requires width { prober.old.width ≡ writer.old.listed.width }
    requires book { B.shape book.old ≡ prober.old.geometry }
    requires set { All (IsCertificate prober.old.geometry) set.now }
    ensures listed { writer.new.listed ≡ writer.old.listed }
    ensures same { prober.new ≡ prober.old }
    ensures on { OnOk result (GoesOn writer.old writer.new (record { before = K.taken out.old; after = K.taken out.new })) }
    ensures done { OnOk result (IsAtLimit writer.new.listed.limit writer.new.count ⊎ NoneIsLeft writer.new.listed.geometry writer.new.last) }
    ensures ends { IfErr result (EndsAs writer.old (record { before = K.taken out.old; after = K.taken out.new })) }
    ensures book { B.shape book.new ≡ B.shape book.old }
    ensures cause { result ≡ Err Served.WriteFault → Rose (K.faults out.old) (K.faults out.new) }
    ensures later { K.faults out.old ≤ K.faults out.new }
{
    loop {
        write_ready(writer, board, out)?;
        if writer.is_full() {
            return Ok(());
        }
        match settle_least(prober, book, set, board) {
            Ok(true) => {}
            Ok(false) => return Ok(()),
            Err(_) => return Err(Served::Memory),
        }
    }
}

/// Makes what a listing needs, and lists. Where memory is short for that, nothing is written.
fn list<B: Book, K: Sink>(
    alloc: Global,
    listing: &Listing<'_>,
    book: &mut B,
    set: &NogoodSet<'_>,
    out: &mut K,
) -> Result<Served, AllocError>
    requires book { B.shape book.old ≡ listing.now.geometry }
    requires set { All (IsCertificate listing.now.geometry) set.now }
    ensures served { IfOk result (HasServed listing.now (record { before = K.taken out.old; after = K.taken out.new })) }
    ensures none { OnErr result (K.taken out.new ≡ K.taken out.old) }
    ensures book { B.shape book.new ≡ B.shape book.old }
    ensures cause { result ≡ Ok Served.WriteFault → Rose (K.faults out.old) (K.faults out.new) }
    ensures later { K.faults out.old ≤ K.faults out.new }
{
    let start = copied_start(alloc, listing.start())?;
    let geometry = listing.geometry().try_clone(alloc)?;
    let mut board = Board::new(alloc, geometry, start)?;
    let mut writer = Writer::new(alloc, listing)?;
    let mut prober = Prober::new(alloc, listing.geometry(), listing.width())?;
    match list_all(&mut writer, &mut prober, book, set, &mut board, out) {
        Ok(()) => Ok(writer.finish()),
        Err(served) => Ok(served),
    }
}

/// Writes the blocks of a listing on one thread, and answers how that ends. The least open key is
/// probed and settled, with the items of the book and the certificates of the set, and what comes
/// before all open keys is written at once; so no more is probed than the blocks need. Where the limit
/// is reached by kept blocks, nothing is probed. It waits for nobody.
pub fn list_alone<B: Book, K: Sink>(
    alloc: Global,
    listing: &Listing<'_>,
    book: &mut B,
    set: &NogoodSet<'_>,
    out: &mut K,
) -> Served
    requires book { B.shape book.old ≡ listing.now.geometry }
    requires set { All (IsCertificate listing.now.geometry) set.now }
    ensures served { HasServed listing.now (record { before = K.taken out.old; after = K.taken out.new }) result }
    ensures book { B.shape book.new ≡ B.shape book.old }
    ensures cause { result ≡ Served.WriteFault → Rose (K.faults out.old) (K.faults out.new) }
    ensures later { K.faults out.old ≤ K.faults out.new }
{
    match list(alloc, listing, book, set, out) {
        Ok(served) => served,
        Err(_) => Served::Memory,
    }
}
