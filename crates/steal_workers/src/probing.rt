//! What is found out about a key.
ghost use Rattle.std.specs.Prelude.{◌≡◌, ◌≤◌, All, IfOk};
ghost use Rattle.ntfe_model.specs.Certificates.{IsCertificate};
ghost use Rattle.ntfe_model.specs.Keys.{IsKey};
ghost use Rattle.steal_workers.specs.Probing.{FindsWithin, IsVerdictOf, IsVerdictOn};

use choice_board::Verdict;
use node_probe::{Finding, FoldCache, Stems, probe_following};
use nogood_set::NogoodSet;
use ntfe_model::{Book, Geometry, Key};
use std::alloc::{AllocError, Global};
use std::marker::Model;
use strict_solver::Tableau;

/// The rows that a prober's tableau has at first. A larger one takes its place where a key needs it.
const FIRST_ROWS: u32 = 64;

/// What probes the keys of a geometry, with solver numbers below 2^width in size.
#[derive(Drop)]
pub struct Prober<'g> {
    alloc: Global,
    geometry: &'g Geometry,
    cache: FoldCache,
    stems: Stems,
    tableau: Tableau,
    width: u8,
    blocked: u64,
}

impl<'g> Model for Prober<'g> {
    ghost use Rattle.steal_workers.specs.Probing.{Probes, IsProber};

    ghost Value = { Probes };

    ghost view = { λ p. record { geometry = p.geometry.now; width = p.width } };

    ghost invariant = { λ p. IsProber p.geometry.now p.cache p.stems.columns p.tableau.columns p.width };
}

/// The verdict of a finding. A key that a certificate of the set blocks is pruned by a copy of it.
fn verdict_of(alloc: Global, finding: Finding, set: &NogoodSet<'_>) -> Result<Verdict, AllocError>
    requires { FindsWithin set.now finding }
    ensures { IfOk result (IsVerdictOf set.now finding) }
{
    match finding {
        Finding::End => Ok(Verdict::End),
        Finding::Far { .. } => Ok(Verdict::Far),
        Finding::Blocked(place) => Ok(Verdict::Pruned(set.entry(place).try_clone(alloc)?)),
        Finding::Refuted(nogood) => Ok(Verdict::Pruned(nogood)),
        Finding::Wide { step, number } => Ok(Verdict::Wide { step, number }),
        Finding::Class(heights) => Ok(Verdict::Class(heights)),
        Finding::Descend => Ok(Verdict::Descend),
    }
}

impl<'g> Prober<'g> {
    /// A prober of the geometry's keys. The width is from 1 to 62.
    ///
    /// # Errors
    /// `AllocError` where memory is short.
    pub fn new(alloc: Global, geometry: &'g Geometry, width: u8) -> Result<Prober<'g>, AllocError>
        requires low { 1 ≤ width }
        requires high { width ≤ 62 }
        ensures { IfOk result (λ p. p ≡ record { geometry = geometry.now; width = width }) }
    {
        let columns = geometry.points().len() as u32;
        let cache = FoldCache::new(alloc, geometry)?;
        let stems = Stems::new(alloc, columns, geometry.faces().len())?;
        let tableau = Tableau::reserve(alloc, FIRST_ROWS, columns)?;
        Ok(Prober {
            alloc,
            geometry,
            cache,
            stems,
            tableau,
            width,
            blocked: 0,
        })
    }

    /// A true verdict on the key, with the items of a book of the geometry and certificates of it.
    ///
    /// # Errors
    /// `AllocError` where memory is short.
    pub fn find<B: Book>(
        &mut self,
        key: &Key,
        book: &mut B,
        set: &NogoodSet<'_>,
    ) -> Result<Verdict, AllocError>
        requires key { IsKey self.old.geometry key.now }
        requires book { B.shape book.old ≡ self.old.geometry }
        requires set { All (IsCertificate self.old.geometry) set.now }
        ensures same { self.new ≡ self.old }
        ensures book { B.shape book.new ≡ B.shape book.old }
        ensures verdict { IfOk result (IsVerdictOn self.old.geometry self.old.width key.now) }
    {
        let finding = probe_following(
            self.alloc,
            self.geometry,
            key,
            book,
            &mut self.cache,
            set,
            &mut self.stems,
            &mut self.tableau,
            self.width,
        )?;
        if let Finding::Blocked(_) = finding {
            self.blocked = self.blocked.saturating_add(1);
        }
        verdict_of(self.alloc, finding, set)
    }

    /// How many probes were ended by a certificate of the set, up to 2^64 - 1.
    pub fn blocked(&self) -> u64 {
        self.blocked
    }
}
