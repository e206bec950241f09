//! The probe of a key.
ghost use Rattle.std.specs.Prelude.{◌≡◌, ◌≤◌, ℕ, length, All, IfOk, MatchOption};
ghost use Rattle.ntfe_model.specs.Books.{KeepsAll};
ghost use Rattle.ntfe_model.specs.Certificates.{IsCertificate};
ghost use Rattle.ntfe_model.specs.Keys.{IsKey};
ghost use Rattle.ntfe_model.specs.Shapes.{IsShape};
ghost use Rattle.nogood_set.specs.Blocking.{NoneBlocks};
ghost use Rattle.node_probe.specs.Heads.{KeepsHead};
ghost use Rattle.node_probe.specs.FoldCaches.{patches};
ghost use Rattle.node_probe.specs.Findings.{IsWithin, IsFinding, RulesOut};
ghost use Rattle.node_probe.specs.Followed.{IsFoundTrue};

use crate::fetching::fetch_head;
use crate::finding::Finding;
use crate::fold_cache::FoldCache;
use crate::following::judge_following;
use crate::solving::judge_head;
use crate::stems::Stems;
use nogood_set::NogoodSet;
use ntfe_model::{Book, Geometry, ITEM_LIMIT, Key};
use std::alloc::{AllocError, Global};
use strict_solver::Tableau;

/// What is found at a key without the solver. Where it is nothing, the book keeps the head's items.
fn found_before<B: Book>(
    geometry: &Geometry,
    key: &Key,
    book: &mut B,
    set: &NogoodSet,
) -> Result<Option<Finding>, AllocError>
    requires geometry { IsShape geometry.now }
    requires key { IsKey geometry.now key.now }
    requires shape { B.shape book.old ≡ geometry.now }
    requires set { All (IsCertificate geometry.now) set.now }
    ensures shape { B.shape book.new ≡ B.shape book.old }
    ensures kept { KeepsAll (B.keeps book.old) (B.keeps book.new) }
    ensures finding { IfOk result (λ o. MatchOption o (IsWithin geometry.now key.now × NoneBlocks set.now key.now × KeepsHead (B.keeps book.new) key.now) (λ x. (width : ℕ) → IsFinding geometry.now width key.now set.now x)) }
{
    if !fetch_head(book, key)? {
        return Ok(Some(Finding::End));
    }
    let numbers = key.0.as_slice();
    let face = numbers.len() - 1;
    if numbers[face] == ITEM_LIMIT {
        return Ok(Some(Finding::Far { face: face as u32 }));
    }
    if let Some(place) = set.blocks(key) {
        return Ok(Some(Finding::Blocked(place)));
    }
    Ok(None)
}

/// What is found at a key of the geometry: the first that holds of
///
/// - an item of the head does not exist;
/// - the last item is out of reach;
/// - a certificate of the set blocks the key;
/// - the head's folds, the rows of the solver, cancel: then a certificate that blocks the key;
/// - the key is a choice: then the heights that extend it, or where the solver's numbers, below
///   2^width in size, were too wide;
/// - a two-face is left.
///
/// So no extendable choice begins with the numbers of a key that is blocked or refuted.
///
/// The items that were looked for are kept in the book, which loses none, and their folds on the cache
/// of the geometry, so that a later probe does not make them again. Heights that the solver finds are kept
/// there too: where those of a key's stem lift all folds of the key and a two-face is left, the solver is
/// not asked. The rows of a head use the memory of those before. Where the head has more folds than the
/// tableau has rows, a larger one takes its place.
///
/// # Errors
/// `AllocError` where memory is short.
pub fn probe_cached<B: Book>(
    alloc: Global,
    geometry: &Geometry,
    key: &Key,
    book: &mut B,
    cache: &mut FoldCache,
    set: &NogoodSet,
    tableau: &mut Tableau,
    width: u8,
) -> Result<Finding, AllocError>
    requires key { IsKey geometry.now key.now }
    requires shape { B.shape book.old ≡ geometry.now }
    requires set { All (IsCertificate geometry.now) set.now }
    requires patches { cache.old ≡ patches geometry.now }
    requires columns { tableau.old.columns ≡ length geometry.now.points }
    requires low { 1 ≤ width }
    requires high { width ≤ 62 }
    ensures shape { B.shape book.new ≡ B.shape book.old }
    ensures kept { KeepsAll (B.keeps book.old) (B.keeps book.new) }
    ensures patches { cache.new ≡ cache.old }
    ensures columns { tableau.new.columns ≡ tableau.old.columns }
    ensures finding { IfOk result (IsFinding geometry.now width key.now set.now) }
    ensures pruned { IfOk result (RulesOut geometry.now key.now) }
{
    let columns = geometry.points().len() as u32;
    if let Some(finding) = found_before(geometry, key, book, set)? {
        return Ok(finding);
    }
    let rows = cache.head_rows(alloc, key, book)?;
    let finding = judge_head(alloc, geometry, columns, key, &rows, cache, tableau, width)?;
    cache.take_back(rows);
    Ok(finding)
}

/// What is found at a key of the geometry, as [`probe_cached`] has it, but that a key whose folds cancel has some certificate
/// that blocks it, and that at the greatest width a choice is a class wherever its heights are found, the numbers of the solver
/// being wide or not. The stems are those of the key that was probed before: as far as its two-faces have the same items,
/// nothing is done again.
///
/// # Errors
/// `AllocError` where memory is short.
pub fn probe_following<B: Book>(
    alloc: Global,
    geometry: &Geometry,
    key: &Key,
    book: &mut B,
    cache: &mut FoldCache,
    set: &NogoodSet,
    stems: &mut Stems,
    tableau: &mut Tableau,
    width: u8,
) -> Result<Finding, AllocError>
    requires key { IsKey geometry.now key.now }
    requires shape { B.shape book.old ≡ geometry.now }
    requires set { All (IsCertificate geometry.now) set.now }
    requires patches { cache.old ≡ patches geometry.now }
    requires columns { tableau.old.columns ≡ length geometry.now.points }
    requires stems { stems.old.columns ≡ length geometry.now.points }
    requires low { 1 ≤ width }
    requires high { width ≤ 62 }
    ensures shape { B.shape book.new ≡ B.shape book.old }
    ensures kept { KeepsAll (B.keeps book.old) (B.keeps book.new) }
    ensures patches { cache.new ≡ cache.old }
    ensures columns { tableau.new.columns ≡ tableau.old.columns }
    ensures stems { stems.new.columns ≡ stems.old.columns }
    ensures finding { IfOk result (IsFoundTrue geometry.now width key.now set.now) }
    ensures pruned { IfOk result (RulesOut geometry.now key.now) }
{
    let columns = geometry.points().len() as u32;
    if let Some(finding) = found_before(geometry, key, book, set)? {
        return Ok(finding);
    }
    let rows = cache.head_rows(alloc, key, book)?;
    let finding = judge_following(
        alloc, geometry, columns, key, &rows, cache, stems, tableau, width,
    )?;
    cache.take_back(rows);
    Ok(finding)
}

/// What is found at a key of the geometry, as [`probe_cached`] has it, with a cache of its own. Whoever
/// probes many keys keeps a cache.
///
/// # Errors
/// `AllocError` where memory is short.
pub fn probe<B: Book>(
    alloc: Global,
    geometry: &Geometry,
    key: &Key,
    book: &mut B,
    set: &NogoodSet,
    tableau: &mut Tableau,
    width: u8,
) -> Result<Finding, AllocError>
    requires key { IsKey geometry.now key.now }
    requires shape { B.shape book.old ≡ geometry.now }
    requires set { All (IsCertificate geometry.now) set.now }
    requires columns { tableau.old.columns ≡ length geometry.now.points }
    requires low { 1 ≤ width }
    requires high { width ≤ 62 }
    ensures shape { B.shape book.new ≡ B.shape book.old }
    ensures kept { KeepsAll (B.keeps book.old) (B.keeps book.new) }
    ensures columns { tableau.new.columns ≡ tableau.old.columns }
    ensures finding { IfOk result (IsFinding geometry.now width key.now set.now) }
    ensures pruned { IfOk result (RulesOut geometry.now key.now) }
{
    let mut cache = FoldCache::new(alloc, geometry)?;
    probe_cached(alloc, geometry, key, book, &mut cache, set, tableau, width)
}
