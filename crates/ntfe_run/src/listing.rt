//! The text of a list of classes.
ghost use Rattle.std.specs.Prelude.{◌≡◌, ◌≤◌, [], cond};
ghost use Rattle.io_edge.specs.Causes.{Rose};
ghost use Rattle.io_edge.specs.Lines.{WritesText};
ghost use Rattle.ntfe_model.specs.RunText.{head_text};
ghost use Rattle.class_text.specs.Forms.{form_of};
ghost use Rattle.steal_workers.specs.Listings.{HasServed};
ghost use Rattle.ntfe_run.specs.Statuses.{WritesLast};

use crate::status::{Status, status_of_lines};
use class_text::{TextForm, write_end, write_head};
use fine_stream::OwnBook;
use io_edge::{Gate, LineFault, Sink};
use nogood_set::NogoodSet;
use std::alloc::Global;
use std::sync::Wait;
use std::thread::Threads;
use steal_workers::{Listing, Served, list_alone, list_together};

/// The most workers.
const WORKERS_MOST: u16 = 16;

/// Writes the head, where it is due.
pub fn write_head_due<K: Sink>(
    alloc: Global,
    form: &TextForm,
    due: bool,
    out: &mut K,
) -> Result<(), LineFault>
    ensures { WritesText (K.taken out.old) (K.taken out.new) (K.faults out.old) (K.faults out.new) result (cond due (head_text form.now.pair (form_of form.now)) []) }
{
    if due {
        return write_head(alloc, form, out);
    }
    Ok(())
}

/// Writes the last line of a list that came to its end or to its limit.
pub fn write_last<K: Sink>(alloc: Global, served: Served, out: &mut K) -> Status
    ensures { WritesLast served (record { before = K.taken out.old; after = K.taken out.new }) (record { before = K.faults out.old; after = K.faults out.new }) result }
{
    match served {
        Served::End { count, .. } => status_of_lines(write_end(alloc, false, count, out)),
        Served::Limit { count, .. } => status_of_lines(write_end(alloc, true, count, out)),
        Served::Wide {
            choice,
            step,
            number,
        } => Status::Overflow {
            choice,
            step,
            number,
        },
        Served::Far { face } => Status::Limit { face },
        Served::WriteFault => Status::WriteFault,
        Served::Memory => Status::Memory,
    }
}

/// Lists on this thread, with a book of its own and no certificates.
pub fn list_here<K: Sink>(alloc: Global, listing: &Listing<'_>, out: &mut K) -> Served
    ensures served { HasServed listing.now (record { before = K.taken out.old; after = K.taken out.new }) result }
    ensures cause { result ≡ Served.WriteFault → Rose (K.faults out.old) (K.faults out.new) }
    ensures later { K.faults out.old ≤ K.faults out.new }
{
    let Ok(mut book) = OwnBook::new(alloc, listing.geometry()) else {
        return Served::Memory;
    };
    let set = NogoodSet::new(alloc);
    list_alone(alloc, listing, &mut book, &set, out)
}

/// Lists with up to 16 workers beside this thread, or on this thread alone where one is asked for.
pub fn list_with<R: Threads + Wait + Sync, K: Sink, G: Gate + Sync>(
    rt: &R,
    alloc: Global,
    listing: &Listing<'_>,
    workers: u16,
    out: &mut K,
    gate: &G,
) -> Served
    ensures served { HasServed listing.now (record { before = K.taken out.old; after = K.taken out.new }) result }
    ensures cause { result ≡ Served.WriteFault → Rose (K.faults out.old) (K.faults out.new) }
    ensures later { K.faults out.old ≤ K.faults out.new }
{
    if workers < 2 {
        return list_here(alloc, listing, out);
    }
    list_together(rt, alloc, listing, workers.min(WORKERS_MOST), out, gate)
}
