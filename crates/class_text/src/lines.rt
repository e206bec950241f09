//! What is written as a line.
ghost use Rattle.std.specs.Prelude.{◌≡◌, ℕ, List, IfOk, string_bytes, flat_map};
ghost use Rattle.io_edge.specs.Lines.{WritesText};

use io_edge::{LineFault, Sink, write_text};
use std::alloc::{AllocError, Global};

/// What is written as a line.
pub trait Line {
    /// The bytes of the line, with its line feed.
    ghost line: { Self → List ℕ };

    /// The line.
    fn text(&self, alloc: Global) -> Result<String, AllocError>
        ensures { IfOk result (λ s. string_bytes s ≡ line self.now) };
}

/// Makes a line and writes it as one piece.
pub fn write_item<T: Line, K: Sink>(alloc: Global, item: &T, out: &mut K) -> Result<(), LineFault>
    ensures { WritesText (K.taken out.old) (K.taken out.new) (K.faults out.old) (K.faults out.new) result (T.line item.now) }
{
    match item.text(alloc) {
        Ok(line) => write_text(&line, out),
        Err(_) => Err(LineFault::Memory),
    }
}

/// Writes the lines of the items, each as one piece.
pub fn write_items<T: Line, K: Sink>(
    alloc: Global,
    items: &[T],
    out: &mut K,
) -> Result<(), LineFault>
    ensures { WritesText (K.taken out.old) (K.taken out.new) (K.faults out.old) (K.faults out.new) result (flat_map T.line items.now) }
{
    for item in items {
        write_item(alloc, item, out)?;
    }
    Ok(())
}
