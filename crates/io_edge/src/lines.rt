//! Text, written as one piece.
ghost use Rattle.std.specs.Prelude.{◌≡◌, IfErr};
ghost use Rattle.io_edge.specs.Lines.{WritesText};

use crate::line_fault::LineFault;
use crate::piece::write_piece;
use crate::sink::Sink;

/// Writes a text, such as a line or a part of one, as one piece. Takes no memory.
///
/// # Errors
/// `LineFault::Write` where the sink fails.
pub fn write_text<K: Sink>(text: &str, out: &mut K) -> Result<(), LineFault>
    ensures text { WritesText (K.taken out.old) (K.taken out.new) (K.faults out.old) (K.faults out.new) result text.now }
    ensures fault { IfErr result (λ e. e ≡ LineFault.Write) }
{
    match write_piece(out, text.as_bytes()) {
        Ok(()) => Ok(()),
        Err(_) => Err(LineFault::Write),
    }
}
