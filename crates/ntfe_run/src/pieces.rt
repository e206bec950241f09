//! Pieces that messages share, written without taking memory.
ghost use Rattle.std.specs.Prelude.{◌≡◌, decimal, IfErr};
ghost use Rattle.io_edge.specs.Lines.{WritesText};
ghost use Rattle.ntfe_model.specs.RunText.{spaced};
ghost use Rattle.ntfe_run.specs.Messages.{spaced_numbers, overflow_head, overflow_message, limit_message, line_message, equal_message, pair_message, earlier_line_message};

use crate::fragment::Fragment::{Number, Signed, Text};
use crate::fragment::write_fragments;
use io_edge::{LineFault, Sink};
use ntfe_model::ITEM_LIMIT;
use reflexive_pair::PairFault;

/// Writes what is wrong with a line of the input.
pub fn write_line_message<E: Sink>(number: u32, what: &str, err: &mut E) -> Result<(), LineFault>
    ensures text { WritesText (E.taken err.old) (E.taken err.new) (E.faults err.old) (E.faults err.new) result (line_message number what.now) }
    ensures fault { IfErr result (λ e. e ≡ LineFault.Write) }
{
    write_fragments(&[Text("line "), Number(u64::from(number)), Text(what)], err)
}

/// Writes which entries of a list are equal.
pub fn write_equal<E: Sink>(list: &str, i: u32, j: u32, err: &mut E) -> Result<(), LineFault>
    ensures text { WritesText (E.taken err.old) (E.taken err.new) (E.faults err.old) (E.faults err.new) result (equal_message list.now i j) }
    ensures fault { IfErr result (λ e. e ≡ LineFault.Write) }
{
    write_fragments(
        &[
            Text(list),
            Number(u64::from(i)),
            Text(" and "),
            Number(u64::from(j)),
            Text(" are equal"),
        ],
        err,
    )
}

/// Writes which vertices span a facet that is not described.
pub fn write_other_facet<E: Sink>(
    i: u32,
    j: u32,
    k: u32,
    l: u32,
    err: &mut E,
) -> Result<(), LineFault>
    ensures text { WritesText (E.taken err.old) (E.taken err.new) (E.faults err.old) (E.faults err.new) result (pair_message (PairFault.OtherFacet i j k l)) }
    ensures fault { IfErr result (λ e. e ≡ LineFault.Write) }
{
    write_fragments(
        &[
            Text("vertices "),
            Number(u64::from(i)),
            Text(" "),
            Number(u64::from(j)),
            Text(" "),
            Number(u64::from(k)),
            Text(" "),
            Number(u64::from(l)),
            Text(" span another facet"),
        ],
        err,
    )
}

/// Writes what is wrong with a line of the earlier output.
pub fn write_earlier_line<E: Sink>(number: u32, what: &str, err: &mut E) -> Result<(), LineFault>
    ensures text { WritesText (E.taken err.old) (E.taken err.new) (E.faults err.old) (E.faults err.new) result (earlier_line_message number what.now) }
    ensures fault { IfErr result (λ e. e ≡ LineFault.Write) }
{
    write_fragments(
        &[
            Text("earlier output line "),
            Number(u64::from(number)),
            Text(what),
        ],
        err,
    )
}

/// Writes a space and a number.
fn write_spaced<E: Sink>(number: u32, err: &mut E) -> Result<(), LineFault>
    ensures text { WritesText (E.taken err.old) (E.taken err.new) (E.faults err.old) (E.faults err.new) result (spaced (decimal number)) }
    ensures fault { IfErr result (λ e. e ≡ LineFault.Write) }
{
    write_fragments(&[Text(" "), Number(u64::from(number))], err)
}

/// Writes numbers, one space before each.
pub fn write_numbers<E: Sink>(numbers: &[u32], err: &mut E) -> Result<(), LineFault>
    ensures text { WritesText (E.taken err.old) (E.taken err.new) (E.faults err.old) (E.faults err.new) result (spaced_numbers numbers.now) }
    ensures fault { IfErr result (λ e. e ≡ LineFault.Write) }
{
    for number in numbers {
        write_spaced(*number, err)?;
    }
    Ok(())
}

/// Writes which number the solver came to at which step.
fn write_overflow_head<E: Sink>(step: u64, number: i128, err: &mut E) -> Result<(), LineFault>
    ensures text { WritesText (E.taken err.old) (E.taken err.new) (E.faults err.old) (E.faults err.new) result (overflow_head step number) }
    ensures fault { IfErr result (λ e. e ≡ LineFault.Write) }
{
    write_fragments(
        &[
            Text("overflow at step "),
            Number(step),
            Text(" with "),
            Signed(number),
            Text(" in choice"),
        ],
        err,
    )
}

/// Writes on which choice the solver's numbers are too wide.
pub fn write_overflow_message<E: Sink>(
    choice: &[u32],
    step: u64,
    number: i128,
    err: &mut E,
) -> Result<(), LineFault>
    ensures text { WritesText (E.taken err.old) (E.taken err.new) (E.faults err.old) (E.faults err.new) result (overflow_message choice.now step number) }
    ensures fault { IfErr result (λ e. e ≡ LineFault.Write) }
{
    write_overflow_head(step, number, err)?;
    write_numbers(choice, err)
}

/// Writes which two-face has too many items.
pub fn write_limit_message<E: Sink>(face: u32, err: &mut E) -> Result<(), LineFault>
    ensures text { WritesText (E.taken err.old) (E.taken err.new) (E.faults err.old) (E.faults err.new) result (limit_message face) }
    ensures fault { IfErr result (λ e. e ≡ LineFault.Write) }
{
    write_fragments(
        &[
            Text("face "),
            Number(u64::from(face)),
            Text(" has more than "),
            Number(u64::from(ITEM_LIMIT)),
            Text(" items"),
        ],
        err,
    )
}
