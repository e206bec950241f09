//! A set of certificates.
ghost use Rattle.std.specs.Prelude.{◌≡◌, ◌<◌, ◌++◌, [], ◌∷◌, length, slice_get, slice_index, Some, OnOk, OnErr, MatchOption};
ghost use Rattle.nogood_set.specs.Blocking.{NoneBlocks, IsFirstBlocking, BlocksAt, ComesFirst};
ghost use Rattle.nogood_set.specs.LastParts.{EndsWith};

use crate::blocking::{first_of, is_blocked};
use indexmap::IndexMap;
use ntfe_model::{Key, Nogood, Part};
use std::alloc::{AllocError, Global};
use std::marker::Model;

/// Certificates that live elsewhere, in the order in which they were added. Contracts see the list of
/// the entries.
///
/// They are found by their last part: a key that an entry blocks has that part, so one look-up for each number of
/// the key finds all entries that can block it.
#[derive(Drop)]
pub struct NogoodSet<'s> {
    entries: Vec<&'s Nogood>,
    /// For each entry, the place of the entry before it with the same last part.
    earlier: Vec<Option<usize>>,
    /// The place of the latest entry with this two-face and item as its last part.
    latest: IndexMap<(usize, u32), usize>,
    /// The place of the first entry without parts, which blocks every key.
    partless: Option<usize>,
}

impl<'s> Model for NogoodSet<'s> {
    ghost use Rattle.std.specs.Prelude.{List, map, ◌&&◌, nat_eq};
    ghost use Rattle.indexmap.specs.IndexMap.{get};
    ghost use Rattle.ntfe_model.specs.declared.nogood.Nogood.{Nogood};
    ghost use Rattle.nogood_set.specs.LastParts.{AreChained};

    ghost Value = { List Nogood };

    ghost view = { λ s. map (λ r. r.now) s.entries.items };

    ghost invariant = { λ s. AreChained (map (λ r. r.now) s.entries.items) s.earlier.items (λ p. get (λ x y. nat_eq x.0 y.0 && nat_eq x.1 y.1) s.latest p) s.partless };
}

impl<'s> NogoodSet<'s> {
    /// The set without entries. Takes no memory yet.
    pub fn new(alloc: Global) -> NogoodSet<'s>
        ensures { result ≡ [] }
    {
        NogoodSet {
            entries: Vec::new(alloc),
            earlier: Vec::new(alloc),
            latest: IndexMap::new(alloc),
            partless: None,
        }
    }

    /// Adds an entry behind the others.
    ///
    /// # Errors
    /// `AllocError` where memory is short; the set is then as before.
    pub fn add(&mut self, nogood: &'s Nogood) -> Result<(), AllocError>
        ensures ok { OnOk result (self.new ≡ self.old ++ nogood.now ∷ []) }
        ensures err { OnErr result (self.new ≡ self.old) }
    {
        match nogood.parts.as_slice().last() {
            Some(last) => self.add_ending(nogood, *last),
            None => self.add_partless(nogood),
        }
    }

    /// Adds an entry with this last part.
    fn add_ending(&mut self, nogood: &'s Nogood, last: Part) -> Result<(), AllocError>
        requires { EndsWith nogood.now (last.face, last.item) }
        ensures ok { OnOk result (self.new ≡ self.old ++ nogood.now ∷ []) }
        ensures err { OnErr result (self.new ≡ self.old) }
    {
        self.entries.reserve(1)?;
        self.earlier.reserve(1)?;
        let place = self.entries.len();
        let earlier = self.latest.insert((last.face as usize, last.item), place)?;
        self.entries.push_reserved(nogood);
        self.earlier.push_reserved(earlier);
        Ok(())
    }

    /// Adds an entry without parts.
    fn add_partless(&mut self, nogood: &'s Nogood) -> Result<(), AllocError>
        requires { nogood.now.parts ≡ [] }
        ensures ok { OnOk result (self.new ≡ self.old ++ nogood.now ∷ []) }
        ensures err { OnErr result (self.new ≡ self.old) }
    {
        self.entries.reserve(1)?;
        self.earlier.reserve(1)?;
        let place = self.entries.len();
        self.partless = self.partless.or(Some(place));
        self.entries.push_reserved(nogood);
        self.earlier.push_reserved(None);
        Ok(())
    }

    /// The number of entries. Takes no memory.
    pub fn len(&self) -> usize
        ensures { result ≡ length self.now }
    {
        self.entries.len()
    }

    /// The place, from 0, of the first entry all of whose parts are in the key's head. Takes no memory.
    pub fn blocks(&self, key: &Key) -> Option<usize>
        ensures { MatchOption result (NoneBlocks self.now key.now) (IsFirstBlocking self.now key.now) }
    {
        let head = key.0.as_slice();
        let mut first = self.partless;
        for face in 0..head.len() {
            first = first_of(first, self.first_ending(head, face));
        }
        first
    }

    /// The first entry that blocks the head, of those whose last part is the head's number for the two-face.
    fn first_ending(&self, head: &[u32], face: usize) -> Option<usize>
        requires { face < length head.now }
        ensures blocks { BlocksAt self.now head.now result }
        ensures first { ComesFirst self.now head.now (λ n. EndsWith n (face, slice_index head.now face)) result }
    {
        let mut first = None;
        let mut next = self.latest.get(&(face, head[face])).copied();
        while let Some(place) = next {
            let blocking = is_blocked(head, self.entry(place)).then_some(place);
            first = blocking.or(first);
            next = self.earlier[place];
        }
        first
    }

    /// The entry at the place, from 0. Takes no memory.
    pub fn entry(&self, place: usize) -> &'s Nogood
        requires { place < length self.now }
        ensures { slice_get self.now place ≡ Some result.now }
    {
        self.entries[place]
    }
}
