//! The layers below the listing, each called once with ample memory, on pairs whose values are known.
ghost use Rattle.std.specs.Prelude.{◌≡◌, [], ◌∷◌, IfOk};

use crate::inputs::geometry_of;
use crate::tests::pairs::{PYRAMID, TT};
use face_chart::{Chart, chart};
use farkas_check::verify;
use fine_stream::{OwnBook, Stream};
use fine_triples::{is_fine, word_of};
use fold_rows::folds;
use node_probe::{Finding, probe};
use nogood_set::NogoodSet;
use ntfe_model::{Book, Fold, Geometry, ITEM_LIMIT, Key, List, Nogood, Part, Term, Triangulation};
use std::alloc::{AllocError, Global};
use strict_solver::Tableau;

/// The pair with its points and two-faces.
pub fn geometry(alloc: Global, text: &str) -> Result<Geometry, AllocError> {
    let bytes = text.as_bytes();
    if bytes.len() > 65536 {
        return Err(AllocError);
    }
    match geometry_of(alloc, bytes) {
        Ok(geometry) => Ok(geometry),
        Err(_) => Err(AllocError),
    }
}

/// The chart of a two-face.
pub fn chart_of(alloc: Global, geometry: &Geometry, face: u32) -> Result<Chart, AllocError> {
    if geometry.faces().len() <= face as usize {
        return Err(AllocError);
    }
    chart(alloc, geometry, face)
}

/// The item that comes first, and the one that a stream gives that stands after it.
fn two_items(
    alloc: Global,
    chart: &Chart,
) -> Result<Option<(Triangulation, Triangulation)>, AllocError> {
    let mut stream = Stream::new(alloc, chart.try_clone(alloc)?)?;
    let Some(first) = stream.next()? else {
        return Ok(None);
    };
    let mut later = Stream::from_word(alloc, chart.try_clone(alloc)?, &first)?;
    let Some(second) = later.next()? else {
        return Ok(None);
    };
    Ok(Some((first, second)))
}

/// Whether the triples are a fine triangulation with this word and the one fold of this inner edge.
fn has_word_and_edge(
    alloc: Global,
    chart: &Chart,
    item: &Triangulation,
    word: &[u32],
    edge: (u32, u32),
) -> Result<bool, AllocError> {
    let triangles = item.triangles.as_slice();
    if !is_fine(chart, triangles) {
        return Ok(false);
    }
    let spelled = word_of(alloc, chart, triangles)?;
    let rows = folds(alloc, chart, item)?;
    let is_edge = match rows.as_slice() {
        [fold] => (fold.a, fold.b) == edge,
        _ => false,
    };
    Ok(is_edge && spelled.as_slice() == word && item.word.as_slice() == word)
}

/// Whether these are the chart and the two items of the square of points 4, 5, 6, 7.
fn is_square(alloc: Global, chart: &Chart) -> Result<bool, AllocError> {
    if chart.points() != [4, 5, 6, 7].as_slice() {
        return Ok(false);
    }
    if chart.boundary() != [(4, 6), (5, 4), (6, 7), (7, 5)].as_slice() {
        return Ok(false);
    }
    let Some(both) = two_items(alloc, chart)? else {
        return Ok(false);
    };
    Ok(
        has_word_and_edge(alloc, chart, &both.0, &[5, 7], (5, 6))?
            && has_word_and_edge(alloc, chart, &both.1, &[7, 5], (4, 7))?,
    )
}

#[test]
fn the_square_of_a_pyramid(rt: HostRuntime) -> Result<(), AllocError> {
    let geometry = geometry(rt.alloc(), PYRAMID)?;
    let chart = chart_of(rt.alloc(), &geometry, 0)?;
    assert!(rt; is_square(rt.alloc(), &chart)?);
    Ok(())
}

/// The key of one number.
fn key_of(alloc: Global, number: u32) -> Result<Key, AllocError>
    ensures { IfOk result (λ k. k ≡ number ∷ []) }
{
    Ok(Key(List::from_vec(vec![in alloc; number]?)))
}

/// Whether the key of one number is to be gone into.
fn is_inner(alloc: Global, geometry: &Geometry, number: u32) -> Result<bool, AllocError> {
    if geometry.faces().is_empty() || number >= ITEM_LIMIT {
        return Err(AllocError);
    }
    let key = key_of(alloc, number)?;
    let mut book = OwnBook::new(alloc, geometry)?;
    let mut tableau = Tableau::reserve(alloc, 1, geometry.points().len() as u32)?;
    let set = NogoodSet::new(alloc);
    let finding = probe(alloc, geometry, &key, &mut book, &set, &mut tableau, 62)?;
    Ok(matches!(finding, Finding::Descend))
}

#[test]
fn a_short_key_is_gone_into(rt: HostRuntime) -> Result<(), AllocError> {
    let geometry = geometry(rt.alloc(), PYRAMID)?;
    assert!(rt; is_inner(rt.alloc(), &geometry, 0)?);
    Ok(())
}

/// The fold of the edge (a, b) of two triples with third points c and d that are a square's.
fn square_fold(edge: (u32, u32), thirds: (u32, u32)) -> Fold {
    Fold {
        a: edge.0,
        b: edge.1,
        c: thirds.0,
        d: thirds.1,
        alpha: 1,
        beta: 1,
    }
}

/// Items of three two-faces of the product of two triangles, with these multiples of their folds.
pub fn three_squares(alloc: Global, times: &[i64]) -> Result<Nogood, AllocError> {
    let squares = [
        (2, 0, (11, 14), (10, 15)),
        (3, 0, (10, 12), (8, 14)),
        (4, 1, (8, 15), (11, 12)),
    ];
    let mut parts = Vec::new(alloc);
    let mut terms = Vec::new(alloc);
    for (part, (face, item, edge, thirds)) in squares.iter().enumerate() {
        parts.push(Part {
            face: *face,
            item: *item,
        })?;
        if part < times.len() {
            terms.push(Term {
                part: part as u32,
                fold: square_fold(*edge, *thirds),
                times: times[part],
            })?;
        }
    }
    Ok(Nogood {
        parts: List::from_vec(parts),
        terms: List::from_vec(terms),
    })
}

/// Fetches the items that are given by two-face and number.
fn fetch_all(
    book: &mut OwnBook,
    geometry: &Geometry,
    items: &[(u32, u32)],
) -> Result<(), AllocError>
    requires { book.old.shape ≡ geometry.now }
    ensures { book.new.shape ≡ book.old.shape }
{
    for (face, number) in items {
        if *face as usize >= geometry.faces().len() || *number > ITEM_LIMIT {
            return Err(AllocError);
        }
        if !book.fetch(*face, *number)? {
            return Err(AllocError);
        }
    }
    Ok(())
}

/// A book that keeps the items of the three squares.
fn squares_book(alloc: Global, geometry: &Geometry) -> Result<OwnBook, AllocError>
    ensures { IfOk result (λ b. b.shape ≡ geometry.now) }
{
    let mut book = OwnBook::new(alloc, geometry)?;
    fetch_all(&mut book, geometry, &[(2, 0), (3, 0), (4, 1)])?;
    Ok(book)
}

/// Whether these multiples of the folds of the three squares are a certificate.
fn is_certificate(
    alloc: Global,
    geometry: &Geometry,
    book: &OwnBook,
    times: &[i64],
) -> Result<bool, AllocError>
    requires { book.now.shape ≡ geometry.now }
{
    let nogood = three_squares(alloc, times)?;
    Ok(verify(&nogood, geometry, book))
}

/// Whether these multiples of the folds of the three squares of the product of two triangles are a
/// certificate.
fn are_refuted(alloc: Global, times: &[i64]) -> Result<bool, AllocError> {
    let geometry = geometry(alloc, TT)?;
    let book = squares_book(alloc, &geometry)?;
    is_certificate(alloc, &geometry, &book, times)
}

#[test]
fn three_squares_that_cannot_stand_together(rt: HostRuntime) -> Result<(), AllocError> {
    assert!(rt; are_refuted(rt.alloc(), &[1, 1, 1])?);
    assert!(rt; !are_refuted(rt.alloc(), &[1, 1, 2])?);
    Ok(())
}
