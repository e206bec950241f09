//! The items of two-faces: as a stream gives them, as a book of its own fetches them, and as a shelf lends them.
ghost use Rattle.std.specs.Prelude.{◌≡◌, ◌<◌, length};

use crate::tests::layers::{chart_of, geometry};
use crate::tests::pairs::{BOX_T, CUBE, DUAL_TT, TETRA, TT};
use fine_stream::{OwnBook, Stream};
use ntfe_model::{Book, Geometry, ITEM_LIMIT};
use shared_stream::{Handed, Shelf, ShelfBook};
use std::alloc::{AllocError, Global};
use std::thread;
use std::thread::Threads;

/// How many items a stream gives, up to a number of them.
fn streamed(mut stream: Stream, most: u32) -> Result<u32, AllocError> {
    for number in 0..most {
        if stream.next()?.is_none() {
            return Ok(number);
        }
    }
    Ok(most)
}

/// How many items a book has of the two-face, up to a number of them.
fn fetched<B: Book>(
    book: &mut B,
    geometry: &Geometry,
    face: u32,
    most: u32,
) -> Result<u32, AllocError>
    requires { B.shape book.old ≡ geometry.now }
{
    for number in 0..most.min(ITEM_LIMIT) {
        if face as usize >= geometry.faces().len() || !book.fetch(face, number)? {
            return Ok(number);
        }
    }
    Ok(most)
}

/// How many items of the two-face a stream gives.
fn given(alloc: Global, geometry: &Geometry, face: u32) -> Result<u32, AllocError> {
    let stream = Stream::new(alloc, chart_of(alloc, geometry, face)?)?;
    streamed(stream, 999)
}

/// How many items of the two-face a book of its own keeps.
fn kept(alloc: Global, geometry: &Geometry, face: u32) -> Result<u32, AllocError> {
    let mut book = OwnBook::new(alloc, geometry)?;
    fetched(&mut book, geometry, face, 999)
}

/// How many items of the two-face a shelf lends.
fn lent(alloc: Global, geometry: &Geometry, face: u32) -> Result<u32, AllocError> {
    let shelf = Shelf::new(alloc, geometry)?;
    let mut book = ShelfBook::new(alloc, &shelf, geometry)?;
    fetched(&mut book, geometry, face, 999)
}

/// How many items the two-face of a pair has, told in three ways.
fn counts(alloc: Global, text: &str, face: u32) -> Result<[u32; 3], AllocError> {
    let geometry = geometry(alloc, text)?;
    let given = given(alloc, &geometry, face)?;
    let kept = kept(alloc, &geometry, face)?;
    let lent = lent(alloc, &geometry, face)?;
    Ok([given, kept, lent])
}

#[test]
fn items_of_two_faces(rt: HostRuntime) -> Result<(), AllocError> {
    assert!(rt; counts(rt.alloc(), TT, 0)? == [1, 1, 1]);
    assert!(rt; counts(rt.alloc(), TT, 2)? == [2, 2, 2]);
    assert!(rt; counts(rt.alloc(), BOX_T, 4)? == [6, 6, 6]);
    assert!(rt; counts(rt.alloc(), TETRA, 0)? == [4, 4, 4]);
    assert!(rt; counts(rt.alloc(), CUBE, 0)? == [64, 64, 64]);
    assert!(rt; counts(rt.alloc(), DUAL_TT, 0)? == [79, 79, 79]);
    Ok(())
}

/// Whether the first segment of a two-face is lent, and has this many items.
fn is_lent(alloc: Global, shelf: &Shelf, face: u32, count: u32) -> Result<bool, AllocError>
    requires { face < length shelf.now.faces }
{
    match shelf.segment(alloc, face, 0)? {
        Handed::Lent(segment) => Ok(
            segment.ended()
                && segment.item(count.saturating_sub(1)).is_some()
                && segment.item(count).is_none(),
        ),
        Handed::Own(_, _) => Ok(false),
        Handed::Past { segments: _ } => Ok(false),
    }
}

/// Whether two threads at once are lent the items of a cube's face, and once more after them.
fn are_lent<R: Threads + Sync>(rt: &R, alloc: Global) -> Result<bool, AllocError> {
    let geometry = geometry(alloc, CUBE)?;
    if geometry.faces().is_empty() {
        return Ok(false);
    }
    let shelf = Shelf::new(alloc, &geometry)?;
    let (one, two) = thread::join(
        rt,
        || is_lent(alloc, &shelf, 0, 64),
        || is_lent(alloc, &shelf, 0, 64),
    );
    Ok(one? && two? && is_lent(alloc, &shelf, 0, 64)?)
}

#[test]
fn a_segment_is_lent_to_two_threads(rt: HostRuntime) -> Result<(), AllocError> {
    assert!(rt; are_lent(&rt, rt.alloc())?);
    Ok(())
}
