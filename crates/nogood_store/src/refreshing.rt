//! Reading on in a store.
ghost use Rattle.std.specs.Prelude.{◌≡◌, ◌+◌, ◌<◌, ◌≤◌, ◌^◌, length, IfOk, IfSome, IfNone, OnErr};
ghost use Rattle.ntfe_model.specs.Books.{KeepsAll};
ghost use Rattle.nogood_store.specs.Receipts.{IsReceiptOf, IsBehind, Adds, Refreshes, Looks};

use crate::checking::is_certificate;
use crate::reader::Reader;
use crate::store::Store;
use boxcar::Pushed;
use nogood_set::NogoodSet;
use ntfe_model::{Book, Geometry, Nogood};
use std::alloc::AllocError;

/// How many places are looked at for an entry.
const PLACES_AHEAD: usize = 8;

impl Store {
    /// The first entry at one of a few places from this one on.
    fn entry_from(&self, place: usize) -> Option<Pushed<Nogood>>
        ensures { IfSome result (λ w. IsReceiptOf self.now w × (place ≤ w.index) × (w.index + 1 < 2 ^ 64)) }
    {
        for ahead in place..place.saturating_add(PLACES_AHEAD) {
            if let Some(entry) = self.entries.witness(ahead) {
                return Some(entry);
            }
        }
        None
    }

    /// The entry that is read next. A place that is empty while a later one is not is waited for once: its push may
    /// be under way, or was refused and leaves it empty for good.
    fn next_entry(&self, reader: &mut Reader) -> Option<Pushed<Nogood>>
        ensures same { reader.new ≡ reader.old }
        ensures some { IfSome result (λ w. IsReceiptOf self.now w × IsBehind reader.new w × (w.index + 1 < 2 ^ 64)) }
    {
        let entry = self.entry_from(reader.next)?;
        if entry.index() > reader.next && !reader.passed {
            reader.passed = true;
            return None;
        }
        Some(entry)
    }

    /// Looks at the next entry, and adds it where it is a certificate; then answers whether it is one. `None` where
    /// there is no entry yet.
    fn look<'s, B: Book>(
        &'s self,
        reader: &mut Reader,
        geometry: &Geometry,
        book: &mut B,
        set: &mut NogoodSet<'s>,
    ) -> Result<Option<bool>, AllocError>
        requires { B.shape book.old ≡ geometry.now }
        ensures shape { B.shape book.new ≡ geometry.now }
        ensures kept { KeepsAll (B.keeps book.old) (B.keeps book.new) }
        ensures some { IfOk result (λ o. IfSome o (Looks self.now geometry.now reader.old set.old reader.new set.new)) }
        ensures none { IfOk result (λ o. IfNone o ((reader.new ≡ reader.old) × (set.new ≡ set.old))) }
        ensures err { OnErr result ((reader.new ≡ reader.old) × (set.new ≡ set.old)) }
    {
        let Some(found) = self.next_entry(reader) else {
            return Ok(None);
        };
        let entry = self.entries.value(&found);
        let is = is_certificate(entry, geometry, book)?;
        reader.seen.reserve(1)?;
        if is {
            set.add(entry)?;
        }
        reader.next = found.index() + 1;
        reader.passed = false;
        reader.seen.push_reserved(found);
        Ok(Some(is))
    }

    /// Reads on behind the last place that the reader saw. Fetches the parts of each entry, adds the entry where it is a
    /// certificate of the geometry, and answers how many were added. An entry is passed over only where it is no
    /// certificate of the geometry, or has a part whose number is over the item limit. Waits for no other thread.
    ///
    /// # Errors
    /// `AllocError` where memory is short. The reader then stands behind the last entry that was added or passed over,
    /// what was added until then stays in the set, and the book may keep more items.
    pub fn refresh<'s, B: Book>(
        &'s self,
        reader: &mut Reader,
        geometry: &Geometry,
        book: &mut B,
        set: &mut NogoodSet<'s>,
    ) -> Result<u32, AllocError>
        requires { B.shape book.old ≡ geometry.now }
        ensures shape { B.shape book.new ≡ geometry.now }
        ensures kept { KeepsAll (B.keeps book.old) (B.keeps book.new) }
        ensures added { Adds geometry.now set.old set.new }
        ensures count { IfOk result (λ n. length set.new ≡ length set.old + n) }
        ensures found { Refreshes self.now geometry.now reader.old set.old reader.new set.new }
    {
        let mut added = 0;
        for _turn in 0..u32::MAX {
            let Some(is) = self.look(reader, geometry, book, set)? else {
                break;
            };
            added += u32::from(is);
        }
        Ok(added)
    }
}
