//! Items of the product of two triangles, lent from a shelf.
ghost use Rattle.std.specs.Prelude.{◌≡◌, ◌<◌, ◌≤◌, length};
ghost use Rattle.ntfe_model.specs.Keys.{item_limit};

use crate::{Handed, Shelf, ShelfBook};
use ntfe_model::{Book, Geometry, ITEM_LIMIT};
use polygon_demo::demo;
use std::alloc::{AllocError, Global};
use std::thread;
use std::thread::Threads;
use two_faces::geometry;

/// The product with its points and two-faces.
fn product(alloc: Global) -> Result<Geometry, AllocError> {
    geometry(alloc, demo(alloc, 1)?).map_err(|_| AllocError)
}

/// Whether a book has the item, and then keeps it.
fn has_item<B: Book>(
    book: &mut B,
    geometry: &Geometry,
    face: u32,
    number: u32,
) -> Result<bool, AllocError>
    requires shape { B.shape book.old ≡ geometry.now }
    requires number { number ≤ item_limit geometry.now }
    ensures { B.shape book.new ≡ geometry.now }
{
    if face as usize >= geometry.faces().len() {
        return Ok(false);
    }
    Ok(book.fetch(face, number)? && book.kept(face, number).is_some())
}

/// How many items a book has of a two-face, up to a number of them.
fn counted<B: Book>(
    book: &mut B,
    geometry: &Geometry,
    face: u32,
    most: u32,
) -> Result<u32, AllocError>
    requires { B.shape book.old ≡ geometry.now }
{
    for number in 0..most.min(ITEM_LIMIT) {
        if !has_item(book, geometry, face, number)? {
            return Ok(number);
        }
    }
    Ok(most)
}

/// How many items of a two-face are lent.
fn lent(alloc: Global, face: u32) -> Result<u32, AllocError> {
    let geometry = product(alloc)?;
    let shelf = Shelf::new(alloc, &geometry)?;
    let mut book = ShelfBook::new(alloc, &shelf, &geometry)?;
    counted(&mut book, &geometry, face, 9)
}

#[test]
fn items_of_a_triangle_and_of_a_square(rt: HostRuntime) -> Result<(), AllocError> {
    assert!(rt; lent(rt.alloc(), 0)? == 1);
    assert!(rt; lent(rt.alloc(), 2)? == 2);
    Ok(())
}

/// Whether a segment is lent, and has one item more than this number of items.
fn is_lent(alloc: Global, shelf: &Shelf, face: u32, last: u32) -> Result<bool, AllocError>
    requires { face < length shelf.now.faces }
{
    match shelf.segment(alloc, face, 0)? {
        Handed::Lent(segment) => Ok(
            segment.ended() && segment.item(last).is_some() && segment.item(last + 1).is_none(),
        ),
        Handed::Own(_, _) => Ok(false),
        Handed::Past { segments: _ } => Ok(false),
    }
}

/// Whether two threads at once are lent the square's items, and once more after them.
fn are_lent<R: Threads + Sync>(rt: &R, alloc: Global) -> Result<bool, AllocError> {
    let geometry = product(alloc)?;
    if geometry.faces().len() < 3 {
        return Ok(false);
    }
    let shelf = Shelf::new(alloc, &geometry)?;
    let (one, two) = thread::join(
        rt,
        || is_lent(alloc, &shelf, 2, 1),
        || is_lent(alloc, &shelf, 2, 1),
    );
    Ok(one? && two? && is_lent(alloc, &shelf, 2, 1)?)
}

#[test]
fn a_segment_is_lent_to_all(rt: HostRuntime) -> Result<(), AllocError> {
    assert!(rt; are_lent(&rt, rt.alloc())?);
    Ok(())
}
