//! Lines that begin with the number of what they show.
ghost use Rattle.std.specs.Prelude.{◌≡◌, ℕ, List, IfOk, string_bytes, ◌+◌, ◌^◌, ◌<◌, ◌++◌, length, decimal};
ghost use Rattle.io_edge.specs.Lines.{WritesText};
ghost use Rattle.ntfe_model.specs.RunText.{vector_line, spaced};
ghost use Rattle.ntfe_model.specs.FacesText.{numbered, point_line, face_line};

use class_text::{append_number, append_numbers, append_signed};
use io_edge::{LineFault, Sink, write_text};
use ntfe_model::{Face, Point};
use std::alloc::{AllocError, Global};

/// What is written as a line that begins with its number.
pub trait NumberedLine {
    /// The bytes of the line with this number, with its line feed.
    ghost line: { ℕ → Self → List ℕ };

    /// The line with this number.
    fn text(&self, alloc: Global, number: u64) -> Result<String, AllocError>
        ensures { IfOk result (λ s. string_bytes s ≡ line number self.now) };
}

/// A number and four coordinates.
fn four_text(
    alloc: Global,
    number: u64,
    a: i64,
    b: i64,
    c: i64,
    d: i64,
) -> Result<String, AllocError>
    ensures { IfOk result (λ s. string_bytes s ≡ decimal number ++ spaced (vector_line (record { x1 = a; x2 = b; x3 = c; x4 = d }))) }
{
    let mut text = format!(in alloc; "{number}")?;
    append_signed(&mut text, a)?;
    append_signed(&mut text, b)?;
    append_signed(&mut text, c)?;
    append_signed(&mut text, d)?;
    text.push('\n')?;
    Ok(text)
}

impl NumberedLine for Point {
    ghost line = { point_line };

    fn text(&self, alloc: Global, number: u64) -> Result<String, AllocError> {
        let x = self.place.coordinates();
        four_text(alloc, number, x[0], x[1], x[2], x[3])
    }
}

impl NumberedLine for Face {
    ghost line = { face_line };

    fn text(&self, alloc: Global, number: u64) -> Result<String, AllocError> {
        let points = self.points.as_slice();
        let mut text = format!(in alloc; "{number}")?;
        append_number(&mut text, u64::from(self.first))?;
        append_number(&mut text, u64::from(self.second))?;
        append_number(&mut text, points.len() as u64)?;
        append_numbers(&mut text, points)?;
        text.push('\n')?;
        Ok(text)
    }
}

/// Makes a line and writes it as one piece.
fn write_numbered_line<T: NumberedLine, K: Sink>(
    alloc: Global,
    item: &T,
    number: u64,
    out: &mut K,
) -> Result<(), LineFault>
    ensures { WritesText (K.taken out.old) (K.taken out.new) (K.faults out.old) (K.faults out.new) result (T.line number item.now) }
{
    match item.text(alloc, number) {
        Ok(line) => write_text(&line, out),
        Err(_) => Err(LineFault::Memory),
    }
}

/// Writes the lines of the items, where the first has the number `first`.
pub fn write_numbered<T: NumberedLine, K: Sink>(
    alloc: Global,
    items: &[T],
    first: u64,
    out: &mut K,
) -> Result<(), LineFault>
    requires { first + length items.now < 2 ^ 64 }
    ensures { WritesText (K.taken out.old) (K.taken out.new) (K.faults out.old) (K.faults out.new) result (numbered T.line first items.now) }
{
    for (i, item) in items.iter().enumerate() {
        write_numbered_line(alloc, item, first + i as u64, out)?;
    }
    Ok(())
}
