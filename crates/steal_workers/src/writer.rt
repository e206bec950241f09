//! What writes the classes in order.
ghost use Rattle.std.specs.Prelude.{◌≡◌, ◌≢◌, ◌≤◌, ◌⊎◌, IfOk, IfErr, OnOk, OnErr, MatchBool, MatchOption, Some, Err};
ghost use Rattle.io_edge.specs.Causes.{Rose};
ghost use Rattle.ntfe_model.specs.Keys.{IsClass};
ghost use Rattle.ntfe_model.specs.RunText.{IsUnderLimit};
ghost use Rattle.choice_board.specs.Settling.{counted};
ghost use Rattle.steal_workers.specs.Listings.{Bytes, Progress, at_start, HasWritten, HasServed, IsAtLimit, IsNextOutcome, NoneIsLeft, GoesOn, EndsAs};
ghost use Rattle.steal_workers.specs.Blocks.{MovesTo, WritesBlock};
ghost use Rattle.steal_workers.specs.Boards.{IsPlace};
ghost use Rattle.steal_workers.specs.Shared.{IsRow};
ghost use Rattle.steal_workers.specs.Ends.{end_of};

use crate::blocks::write_block;
use crate::listing::Listing;
use crate::row::Row;
use crate::served::Served;
use choice_board::Outcome;
use io_edge::{LineFault, Sink};
use ntfe_model::{Choice, Heights};
use std::alloc::{AllocError, Global};
use std::marker::Model;

/// The greatest count of blocks.
const COUNT_LIMIT: u64 = 1 << 63;

/// What writes the classes of a listing in order, into a sink that each call lends. It alone knows of
/// stars and of the limit. Contracts see what is listed, the class last written, and the count.
#[derive(Drop)]
pub struct Writer<'l, 'g> {
    alloc: Global,
    listing: &'l Listing<'g>,
    limit: Option<u32>,
    last: Option<Choice>,
    count: u64,
}

impl<'l, 'g> Model for Writer<'l, 'g> {
    ghost use Rattle.steal_workers.specs.Listings.{Progress};
    ghost use Rattle.steal_workers.specs.Ends.{IsWriter};

    ghost Value = { Progress };

    ghost view = { λ w. record { listed = w.listing.now; last = w.last; count = w.count } };

    ghost invariant = { λ w. IsWriter w.listing.now w.limit w.count };
}

/// An equal start.
pub fn copied_start(alloc: Global, start: &Option<Choice>) -> Result<Option<Choice>, AllocError>
    ensures { IfOk result (λ s. s ≡ start.now) }
{
    match start {
        Some(choice) => Ok(Some(choice.try_clone(alloc)?)),
        None => Ok(None),
    }
}

/// The end of a list whose block was not written.
fn ended(fault: LineFault) -> Served
    ensures { result ≡ end_of fault }
{
    match fault {
        LineFault::Write => Served::WriteFault,
        LineFault::Memory => Served::Memory,
    }
}

impl<'l, 'g> Writer<'l, 'g> {
    /// A writer that stands at the start. The kept blocks are counted.
    ///
    /// # Errors
    /// `AllocError` where memory is short.
    pub fn new(alloc: Global, listing: &'l Listing<'g>) -> Result<Writer<'l, 'g>, AllocError>
        ensures { IfOk result (λ w. w ≡ at_start listing.now) }
    {
        let last = copied_start(alloc, listing.start())?;
        Ok(Writer {
            alloc,
            listing,
            limit: listing.limit(),
            last,
            count: listing.form().kept.min(COUNT_LIMIT),
        })
    }

    /// What is listed.
    pub fn listing(&self) -> &'l Listing<'g>
        ensures { result.now ≡ self.now.listed }
    {
        self.listing
    }

    /// The class last written, or the start where there is none yet.
    pub fn last(&self) -> &Option<Choice>
        ensures { result.now ≡ self.now.last }
    {
        &self.last
    }

    /// The limit, where it is reached.
    fn reached(&self) -> Option<u32>
        ensures { MatchOption result (IsUnderLimit self.now.listed.limit self.now.count) (λ n. (self.now.listed.limit ≡ Some n) × (n ≤ self.now.count)) }
    {
        match self.limit {
            Some(limit) => {
                if u64::from(limit) <= self.count {
                    Some(limit)
                } else {
                    None
                }
            }
            None => None,
        }
    }

    /// Whether as many blocks are written as the limit asks for, the kept ones counted too. Then no
    /// outcome is asked for any more.
    pub fn is_full(&self) -> bool
        ensures { MatchBool result (IsAtLimit self.now.listed.limit self.now.count) (IsUnderLimit self.now.listed.limit self.now.count) }
    {
        self.reached().is_some()
    }

    /// Writes the block of a class, which becomes the last one.
    fn write_class<K: Sink>(
        &mut self,
        choice: Choice,
        heights: &Heights,
        out: &mut K,
    ) -> Result<(), LineFault>
        requires class { IsClass self.old.listed.geometry choice heights.now }
        ensures wrote { WritesBlock self.old.listed.geometry self.old.listed.form choice heights.now (K.taken out.old) (K.taken out.new) (K.faults out.old) (K.faults out.new) result }
        ensures moved { OnOk result (self.new ≡ record self.old { last = Some choice; count = counted self.old.count }) }
        ensures same { OnErr result (self.new ≡ self.old) }
    {
        write_block(
            self.alloc,
            self.listing.form(),
            self.listing.geometry(),
            &choice,
            heights,
            out,
        )?;
        self.last = Some(choice);
        if self.count < COUNT_LIMIT {
            self.count += 1;
        }
        Ok(())
    }

    /// Writes the block of a class, which becomes the last one; a wide choice or a far key ends the
    /// list. Whoever knows at one moment that the outcome is true, that it is above the last class,
    /// and that no extendable choice lies between the two, can go on: the bytes taken are then again
    /// the blocks of exactly the extendable choices up to the last class.
    ///
    /// # Errors
    /// How the list ends. The writer is as it was.
    pub fn write<K: Sink>(&mut self, outcome: Outcome, out: &mut K) -> Result<(), Served>
        requires under { IsUnderLimit self.old.listed.limit self.old.count }
        requires next { IsNextOutcome self.old.listed self.old.last outcome }
        ensures on { OnOk result (GoesOn self.old self.new (record { before = K.taken out.old; after = K.taken out.new })) }
        ensures moved { OnOk result (MovesTo self.old self.new outcome) }
        ensures ends { IfErr result (EndsAs self.old (record { before = K.taken out.old; after = K.taken out.new })) }
        ensures same { OnErr result (self.new ≡ self.old) }
        ensures cause { result ≡ Err Served.WriteFault → Rose (K.faults out.old) (K.faults out.new) }
        ensures later { K.faults out.old ≤ K.faults out.new }
    {
        let _ = &self.alloc;
        match outcome {
            Outcome::Class(choice, heights) => match self.write_class(choice, &heights, out) {
                Ok(()) => Ok(()),
                Err(fault) => Err(ended(fault)),
            },
            Outcome::Wide {
                choice,
                step,
                number,
            } => Err(Served::Wide {
                choice,
                step,
                number,
            }),
            Outcome::Far { face } => Err(Served::Far { face }),
        }
    }

    /// Writes the outcomes of a row in order, until it is empty or the limit is reached. What lies behind the limit stays
    /// in the row.
    ///
    /// # Errors
    /// How the list ends.
    pub(crate) fn write_row<K: Sink>(&mut self, row: &mut Row, out: &mut K) -> Result<(), Served>
        requires row { IsRow self.old.listed self.old.last row.old }
        requires place { IsPlace self.old.listed self.old.last }
        ensures listed { self.new.listed ≡ self.old.listed }
        ensures on { OnOk result (GoesOn self.old self.new (record { before = K.taken out.old; after = K.taken out.new })) }
        ensures place { OnOk result (IsPlace self.new.listed self.new.last) }
        ensures ends { IfErr result (EndsAs self.old (record { before = K.taken out.old; after = K.taken out.new })) }
        ensures cause { result ≡ Err Served.WriteFault → Rose (K.faults out.old) (K.faults out.new) }
        ensures later { K.faults out.old ≤ K.faults out.new }
    {
        while !self.is_full() {
            let Some(outcome) = row.pop() else {
                return Ok(());
            };
            self.write(outcome, out)?;
        }
        Ok(())
    }

    /// How a list ends that is at its limit, or after whose last class no extendable choice is left.
    pub fn finish(self) -> Served
        requires { IsAtLimit self.listed.limit self.count ⊎ NoneIsLeft self.listed.geometry self.last }
        ensures served { (bytes : Bytes) → HasWritten self.entry bytes → HasServed self.entry.listed bytes result }
        ensures no_fault { result ≢ Served.WriteFault }
    {
        match self.reached() {
            Some(limit) => Served::Limit {
                count: self.listing.form().kept.max(u64::from(limit)),
                last: self.last,
            },
            None => Served::End {
                count: self.count,
                last: self.last,
            },
        }
    }
}
