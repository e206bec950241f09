//! The board: open keys, recorded outcomes and pruned keys of one geometry.
use crate::changes::{Near, insert_new, make_room, put};
use crate::opening::{choice_from, made_of, new_key};
use crate::order::comes_first;
use crate::outcome::{Outcome, outcome_of};
use crate::record::{Record, Stop};
use crate::rows::{Keyed, find, remove_at};
use crate::start::start_keys;
use crate::totals::Totals;
use crate::verdict::{Settled, Verdict};
use ntfe_model::{Choice, Geometry, Key, List, Nogood};
use std::alloc::{AllocError, Global};
use std::collections::VecDeque;
use std::marker::Model;

/// What is known of the choices of a geometry above a start, while they are listed. Each choice
/// above the class last handed out stands in exactly one place: under an open key, at a recorded
/// outcome, or under a pruned key.
#[derive(Drop)]
pub struct Board {
    geometry: Geometry,
    alloc: Global,
    last: Option<Choice>,
    keys: VecDeque<Key>,
    recorded: VecDeque<Record>,
    pruned: Vec<(Key, Nogood)>,
    stop: Option<Stop>,
    closed: bool,
    totals: Totals,
    /// Where searches begin. No answer depends on it.
    near: Near,
}

impl Model for Board {
    ghost use Rattle.choice_board.specs.States.{State};

    ghost Value = { State };

    ghost use Rattle.choice_board.specs.Views.{state_of};
    ghost use Rattle.choice_board.specs.States.{IsSound};

    ghost view = { λ b. state_of b.geometry b.last b.keys.items b.recorded.items b.pruned.items b.stop b.closed b.totals };

    ghost invariant = { λ b. IsSound (state_of b.geometry b.last b.keys.items b.recorded.items b.pruned.items b.stop b.closed b.totals) };
}

impl Board {
    ghost use Rattle.std.specs.Prelude.{◌≡◌, ◌↔◌, ◌⊎◌, ◌<◌, ℕ, List, length, slice_index_or, true, false, [], None, Some, Contains, IfOk, IsTrue, MatchBool, MatchOption, OnErr, OnOk};
    ghost use Rattle.ntfe_model.specs.Keys.{IsStart};
    ghost use Rattle.choice_board.specs.Starts.{new_board};
    ghost use Rattle.choice_board.specs.States.{IsSound};
    ghost use Rattle.choice_board.specs.Settling.{IsKeySettled, IsSettled, IsSettledAs};
    ghost use Rattle.choice_board.specs.Rows.{IsFoundAt};
    ghost use Rattle.choice_board.specs.Telling.{AreAllBlocked, HasNext, IsHandedOut, IsLeastOpen, IsLeastSettled, IsWaiting};
    ghost use Rattle.choice_board.specs.Verdicts.{IsTrueOf};

    /// A board on which all choices above `after` are open, or all choices where it is `None`.
    ///
    /// # Errors
    /// `AllocError` where memory is short.
    pub fn new(
        alloc: Global,
        geometry: Geometry,
        after: Option<Choice>,
    ) -> Result<Board, AllocError>
        requires { IsStart geometry after }
        ensures value { IfOk result (λ b. b ≡ new_board geometry after) }
        ensures sound { IfOk result IsSound }
    {
        let faces = geometry.faces().len();
        let keys = start_keys(alloc, faces, &after)?;
        Ok(Board {
            geometry,
            alloc,
            last: after,
            keys: VecDeque::from_vec(keys),
            recorded: VecDeque::new(alloc),
            pruned: Vec::new(alloc),
            stop: None,
            closed: false,
            totals: Totals {
                settled: 0,
                stale: 0,
                classes: 0,
                pruned: 0,
                written: 0,
            },
            near: Near { key: 0, outcome: 0 },
        })
    }

    /// The geometry.
    pub fn geometry(&self) -> &Geometry
        ensures value { result.now ≡ self.now.geometry }
        ensures sound { IsSound self.now }
    {
        &self.geometry
    }

    /// The least open key; none where no key is open, or the board is closed. Takes no memory.
    pub fn least(&self) -> Option<&Key>
        ensures value { MatchOption result ((self.now.closed ≡ true) ⊎ (self.now.open_keys ≡ [])) (λ k. (self.now.closed ≡ false) × IsLeastOpen self.now k.now) }
        ensures sound { IsSound self.now }
    {
        if self.closed {
            return None;
        }
        self.keys.back()
    }

    /// From now on no open key is given out.
    pub fn close(&mut self)
        ensures value { self.new ≡ record self.old { closed = true } }
        ensures sound { IsSound self.new }
    {
        self.closed = true;
    }

    /// The totals.
    pub fn totals(&self) -> Totals
        ensures { result ≡ self.now.totals }
    {
        self.totals
    }

    /// The pruned keys with the certificates that block them, in the order in which they came.
    pub fn pruned(&self) -> &[(Key, Nogood)]
        ensures value { result.now ≡ self.now.pruned }
        ensures sound { IsSound self.now }
    {
        self.pruned.as_slice()
    }

    /// Closes the key with the verdict, if it is open: what was found is recorded, and the keys that
    /// the verdict opens are opened. The verdict on a key that is not open is counted, and nothing
    /// else changes.
    ///
    /// # Errors
    /// `AllocError` where memory is short. The board is as it was.
    pub fn settle(&mut self, key: &Key, verdict: Verdict) -> Result<Settled, AllocError>
        requires { IsTrueOf self.old.geometry key.now verdict }
        ensures answer { IfOk result (λ a. IsSettledAs self.old self.new key.now verdict a) }
        ensures error { OnErr result (self.new ≡ self.old) }
        ensures sound { IsSound self.new }
    {
        let Some(place) = self.place_of(key) else {
            self.totals = self.totals.with_stale();
            return Ok(Settled::Stale);
        };
        let opened = verdict.opened(self.alloc, key)?;
        self.close_at(place, verdict)?;
        Ok(Settled::Taken { opened })
    }

    /// Does what [`settle`](Board::settle) does, and makes no list of the keys that it opens: whether the key was open.
    ///
    /// # Errors
    /// `AllocError` where memory is short. The board is as it was.
    pub fn settle_key(&mut self, key: &Key, verdict: Verdict) -> Result<bool, AllocError>
        requires { IsTrueOf self.old.geometry key.now verdict }
        ensures answer { IfOk result (λ a. IsKeySettled self.old self.new key.now verdict a) }
        ensures error { OnErr result (self.new ≡ self.old) }
        ensures sound { IsSound self.new }
    {
        let Some(place) = self.place_of(key) else {
            self.totals = self.totals.with_stale();
            return Ok(false);
        };
        self.close_at(place, verdict)?;
        Ok(true)
    }

    /// The place of the key among the open keys, if it is one.
    fn place_of(&self, key: &Key) -> Option<usize>
        ensures { MatchOption result (¬ (Contains self.now.open_keys key.now)) (λ i. IsFoundAt (λ k. k) self.now.open_keys key.now i) }
    {
        find(&self.keys, key.numbers(), self.near.key).ok()
    }

    /// Closes the least open key with the verdict, as [`settle`](Board::settle) does. False where no
    /// key is open, or the board is closed; then nothing changes.
    ///
    /// # Errors
    /// `AllocError` where memory is short. The board is as it was.
    pub fn settle_least(&mut self, verdict: Verdict) -> Result<bool, AllocError>
        requires { (k : List ℕ) → IsLeastOpen self.old k → IsTrueOf self.old.geometry k verdict }
        ensures answer { IfOk result (λ a. IsLeastSettled self.old self.new verdict a) }
        ensures error { OnErr result (self.new ≡ self.old) }
        ensures sound { IsSound self.new }
    {
        if self.closed || self.keys.is_empty() {
            return Ok(false);
        }
        let place = self.keys.len() - 1;
        self.close_at(place, verdict)?;
        Ok(true)
    }

    /// Closes the key at the place of the row with the verdict. It is moved to where it stays, and
    /// takes no memory where it is raised.
    fn close_at(&mut self, place: usize, verdict: Verdict) -> Result<(), AllocError>
        requires place { place < length self.old.open_keys }
        requires is_true { IsTrueOf self.old.geometry (slice_index_or self.old.open_keys place []) verdict }
        ensures settled { OnOk result (IsSettled self.old self.new (slice_index_or self.old.open_keys place []) verdict) }
        ensures error { OnErr result (self.new ≡ self.old) }
        ensures sound { IsSound self.new }
    {
        let key = &self.keys[place];
        let new = new_key(self.alloc, key, &verdict)?;
        let totals = self.totals.with_taken(&verdict);
        let made = made_of(self.alloc, key, verdict)?;
        make_room(&mut self.keys, &mut self.recorded, &mut self.pruned)?;
        let own = remove_at(&mut self.keys, place);
        insert_new(&mut self.keys, new, &mut self.near.key);
        put(
            &mut self.keys,
            &mut self.recorded,
            &mut self.pruned,
            own,
            made,
            &mut self.near,
        );
        self.totals = totals;
        Ok(())
    }

    /// The least recorded outcome that was not handed out, which leaves the board. None where there
    /// is none, an open key is not above it, or a wide choice or a far key was handed out. A class
    /// becomes the last class; after a wide choice or a far key nothing more is handed out. Takes no
    /// memory.
    pub fn ready(&mut self) -> Option<Outcome>
        ensures answer { MatchOption result ((self.new ≡ self.old) × IsWaiting self.old) (λ o. IsHandedOut self.old self.new o) }
        ensures sound { IsSound self.new }
    {
        if self.stop.is_some() || !comes_first(&self.recorded, &self.keys) {
            return None;
        }
        let Record { key, found } = self.recorded.pop_back()?;
        let outcome = outcome_of(&key, found);
        match &outcome {
            Outcome::Class(..) => {
                self.last = Some(choice_from(key));
                self.totals = self.totals.with_written();
                Some(outcome)
            }
            Outcome::Wide { .. } => {
                self.stop = Some(Stop::Wide(key));
                Some(outcome)
            }
            Outcome::Far { .. } => {
                self.stop = Some(Stop::Far(key));
                Some(outcome)
            }
        }
    }

    /// Whether [`ready`](Board::ready) would hand out an outcome.
    pub fn is_ready(&self) -> bool
        ensures answer { MatchBool result (HasNext self.now) (IsWaiting self.now) }
        ensures sound { IsSound self.now }
    {
        if self.stop.is_some() {
            return false;
        }
        comes_first(&self.recorded, &self.keys)
    }

    /// The class last handed out; before the first, where the list begins. Takes no memory.
    pub fn last(&self) -> Option<&Choice>
        ensures value { MatchOption result (self.now.last ≡ None) (λ c. self.now.last ≡ Some c.now) }
        ensures sound { IsSound self.now }
    {
        self.last.as_ref()
    }

    /// Whether a wide choice or a far key was handed out, so that nothing more will be.
    pub fn stopped(&self) -> bool
        ensures value { IsTrue result ↔ (¬ (self.now.stop ≡ None)) }
        ensures sound { IsSound self.now }
    {
        self.stop.is_some()
    }

    /// Whether no key is open and all outcomes are handed out. Where the board has not stopped, each
    /// choice above the last class then begins with a pruned key.
    pub fn finished(&self) -> bool
        ensures value { IsTrue result ↔ ((self.now.open_keys ≡ []) × (self.now.recorded ≡ [])) }
        ensures all { IsTrue result → self.now.stop ≡ None → AreAllBlocked self.now }
        ensures sound { IsSound self.now }
    {
        self.keys.is_empty() && self.recorded.is_empty()
    }
}
