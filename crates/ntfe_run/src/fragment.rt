//! Messages, written fragment by fragment without taking memory.
ghost use Rattle.std.specs.Prelude.{◌≡◌, flat_map, IfErr};
ghost use Rattle.io_edge.specs.Lines.{WritesText};
ghost use Rattle.ntfe_run.specs.Fragments.{fragment_text};

use io_edge::{LineFault, Sink, write_text};
use itoa::Buffer;

/// A fragment of a message.
#[derive(Clone, Copy)]
pub enum Fragment<'a> {
    /// Fixed text.
    Text(&'a str),
    /// A number in decimal.
    Number(u64),
    /// A number in decimal, with its sign.
    Signed(i128),
}

/// Writes one fragment.
pub fn write_fragment<E: Sink>(fragment: Fragment<'_>, err: &mut E) -> Result<(), LineFault>
    ensures text { WritesText (E.taken err.old) (E.taken err.new) (E.faults err.old) (E.faults err.new) result (fragment_text fragment.entry) }
    ensures fault { IfErr result (λ e. e ≡ LineFault.Write) }
{
    match fragment {
        Fragment::Text(text) => write_text(text, err),
        Fragment::Number(number) => {
            let mut buffer = Buffer::new();
            write_text(buffer.format(number), err)
        }
        Fragment::Signed(number) => {
            let mut buffer = Buffer::new();
            write_text(buffer.format(number), err)
        }
    }
}

/// Writes the fragments one after the other.
pub fn write_fragments<E: Sink>(fragments: &[Fragment<'_>], err: &mut E) -> Result<(), LineFault>
    ensures text { WritesText (E.taken err.old) (E.taken err.new) (E.faults err.old) (E.faults err.new) result (flat_map fragment_text fragments.now) }
    ensures fault { IfErr result (λ e. e ≡ LineFault.Write) }
{
    for fragment in fragments {
        write_fragment(*fragment, err)?;
    }
    Ok(())
}
