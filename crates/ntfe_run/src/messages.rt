//! The line on standard error that tells how a run ended, written without taking memory.
ghost use Rattle.std.specs.Prelude.{◌≡◌, ◌++◌, ℕ, List, codes, IfErr};
ghost use Rattle.io_edge.specs.Lines.{WritesText};
ghost use Rattle.ntfe_run.specs.Messages.{text_message, pair_message, point_message, earlier_message, refusal_message, answer_message, message_line};

use crate::fragment::Fragment::{Number, Signed, Text};
use crate::fragment::write_fragments;
use crate::pieces::{
    write_earlier_line, write_equal, write_limit_message, write_line_message, write_other_facet,
    write_overflow_message,
};
use crate::status::{Refusal, Status};
use class_text::EarlierFault;
use io_edge::{LineFault, Sink, write_text};
use lattice_points::PointFault;
use pair_text::TextFault;
use reflexive_pair::PairFault;

const USAGE: &str =
    "usage: classes, resume, faces or demo N, with --workers, --limit, --width, --push, --stars";

/// What is told by a text.
pub trait Message {
    /// The bytes of the text.
    ghost message: { Self → List ℕ };

    /// Writes the text.
    fn write<E: Sink>(&self, err: &mut E) -> Result<(), LineFault>
        ensures text { WritesText (E.taken err.old) (E.taken err.new) (E.faults err.old) (E.faults err.new) result (message self.now) }
        ensures fault { IfErr result (λ e. e ≡ LineFault.Write) };
}

/// Why the bytes are no pair text.
impl Message for TextFault {
    ghost message = { text_message };

    fn write<E: Sink>(&self, err: &mut E) -> Result<(), LineFault> {
        match *self {
            TextFault::BadLine { line } => write_line_message(line, ": bad line", err),
            TextFault::BadNumber { line } => write_line_message(line, ": bad number", err),
            TextFault::TooLarge { line } => write_line_message(line, ": number too large", err),
            TextFault::Count { line } => write_line_message(line, ": count not from 5 to 64", err),
            TextFault::Long { line } => write_line_message(line, ": input goes on", err),
            TextFault::Short => write_text("input ends early", err),
            TextFault::Memory => write_text("out of memory", err),
        }
    }
}

/// Why the pair is not reflexive.
impl Message for PairFault {
    ghost message = { pair_message };

    fn write<E: Sink>(&self, err: &mut E) -> Result<(), LineFault> {
        match *self {
            PairFault::Repeated { dual: true, i, j } => write_equal("dual vertices ", i, j, err),
            PairFault::Repeated { dual: false, i, j } => write_equal("vertices ", i, j, err),
            PairFault::Below {
                vertex,
                facet,
                product,
            } => write_fragments(
                &[
                    Text("vertex "),
                    Number(u64::from(vertex)),
                    Text(" with dual vertex "),
                    Number(u64::from(facet)),
                    Text(" gives "),
                    Signed(i128::from(product)),
                ],
                err,
            ),
            PairFault::NotFacet { facet } => write_fragments(
                &[
                    Text("dual vertex "),
                    Number(u64::from(facet)),
                    Text(" is no facet"),
                ],
                err,
            ),
            PairFault::NotVertex { vertex } => write_fragments(
                &[
                    Text("vertex "),
                    Number(u64::from(vertex)),
                    Text(" is no vertex"),
                ],
                err,
            ),
            PairFault::OtherFacet { i, j, k, l } => write_other_facet(i, j, k, l, err),
        }
    }
}

/// Why the points are not listed.
impl Message for PointFault {
    ghost message = { point_message };

    fn write<E: Sink>(&self, err: &mut E) -> Result<(), LineFault> {
        match self {
            PointFault::TooWide { columns } => write_fragments(
                &[
                    Text("box of "),
                    Number(u64::from(*columns)),
                    Text(" columns"),
                ],
                err,
            ),
            PointFault::TooMany { count } => {
                write_fragments(&[Number(u64::from(*count)), Text(" points")], err)
            }
            PointFault::Memory => write_text("out of memory", err),
        }
    }
}

/// Why the earlier output does not go with the run.
impl Message for EarlierFault {
    ghost message = { earlier_message };

    fn write<E: Sink>(&self, err: &mut E) -> Result<(), LineFault> {
        match *self {
            EarlierFault::Head { line } => write_earlier_line(line, ": head differs", err),
            EarlierFault::Body { line } => write_earlier_line(line, ": not in place", err),
            EarlierFault::Memory => write_text("out of memory", err),
        }
    }
}

/// Why the input was refused.
impl Message for Refusal {
    ghost message = { refusal_message };

    fn write<E: Sink>(&self, err: &mut E) -> Result<(), LineFault> {
        match self {
            Refusal::Size { limit } => write_fragments(
                &[
                    Text("input over "),
                    Number(u64::from(*limit)),
                    Text(" bytes"),
                ],
                err,
            ),
            Refusal::NoOutput => write_text("no output line", err),
            Refusal::Text(fault) => fault.write(err),
            Refusal::Pair(fault) => fault.write(err),
            Refusal::Points(fault) => fault.write(err),
            Refusal::Earlier(fault) => fault.write(err),
        }
    }
}

/// An answer other than `Done`.
impl Message for Status {
    ghost message = { answer_message };

    fn write<E: Sink>(&self, err: &mut E) -> Result<(), LineFault> {
        match self {
            Status::Done => Ok(()),
            Status::Usage => write_text(USAGE, err),
            Status::Refused(refusal) => refusal.write(err),
            Status::Overflow {
                choice,
                step,
                number,
            } => write_overflow_message(choice.0.as_slice(), *step, *number, err),
            Status::Limit { face } => write_limit_message(*face, err),
            Status::Memory => write_text("out of memory", err),
            Status::ReadFault => write_text("read failed", err),
            Status::WriteFault => write_text("write failed", err),
        }
    }
}

/// Writes the line that tells of an answer other than `Done`.
fn write_told<E: Sink>(status: &Status, err: &mut E) -> Result<(), LineFault>
    ensures text { WritesText (E.taken err.old) (E.taken err.new) (E.faults err.old) (E.faults err.new) result (codes "ntfe: " ++ (answer_message status.now ++ codes "\n")) }
    ensures fault { IfErr result (λ e. e ≡ LineFault.Write) }
{
    write_text("ntfe: ", err)?;
    status.write(err)?;
    write_text("\n", err)
}

/// Writes the line that tells of the answer; nothing where all was done.
pub fn write_message<E: Sink>(status: &Status, err: &mut E) -> Result<(), LineFault>
    ensures text { WritesText (E.taken err.old) (E.taken err.new) (E.faults err.old) (E.faults err.new) result (message_line status.now) }
    ensures fault { IfErr result (λ e. e ≡ LineFault.Write) }
{
    match status {
        Status::Done => Ok(()),
        Status::Usage
        | Status::Refused(_)
        | Status::Overflow { .. }
        | Status::Limit { .. }
        | Status::Memory
        | Status::ReadFault
        | Status::WriteFault => write_told(status, err),
    }
}
