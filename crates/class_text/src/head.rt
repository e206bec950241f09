//! The head of the text.
ghost use Rattle.std.specs.Prelude.{[], ◌∷◌};
ghost use Rattle.io_edge.specs.Lines.{WritesText};
ghost use Rattle.ntfe_model.specs.RunText.{number_line, list_lines, pair_lines, push_line, stars_line, head_text};
ghost use Rattle.class_text.specs.Forms.{form_of};

use crate::form::TextForm;
use crate::lines::write_items;
use crate::numbers::count_text;
use io_edge::{LineFault, Sink, write_text};
use ntfe_model::{Pair, Push, Vec4};
use std::alloc::Global;

/// Writes a line of a word and one number.
pub fn write_count<K: Sink>(
    alloc: Global,
    word: &str,
    count: u64,
    out: &mut K,
) -> Result<(), LineFault>
    ensures { WritesText (K.taken out.old) (K.taken out.new) (K.faults out.old) (K.faults out.new) result (number_line word.now (count ∷ [])) }
{
    match count_text(alloc, word, count) {
        Ok(line) => write_text(&line, out),
        Err(_) => Err(LineFault::Memory),
    }
}

/// Writes the canonical lines of one list of a pair.
fn write_list<K: Sink>(
    alloc: Global,
    word: &str,
    vectors: &[Vec4],
    out: &mut K,
) -> Result<(), LineFault>
    ensures { WritesText (K.taken out.old) (K.taken out.new) (K.faults out.old) (K.faults out.new) result (list_lines word.now vectors.now) }
{
    write_count(alloc, word, vectors.len() as u64, out)?;
    write_items(alloc, vectors, out)
}

/// Writes the canonical lines of a pair.
pub fn write_pair_lines<K: Sink>(alloc: Global, pair: &Pair, out: &mut K) -> Result<(), LineFault>
    ensures { WritesText (K.taken out.old) (K.taken out.new) (K.faults out.old) (K.faults out.new) result (pair_lines pair.now) }
{
    write_list(alloc, "vertices", pair.vertices(), out)?;
    write_list(alloc, "dual", pair.dual(), out)
}

/// Writes the line that names the order of pushing.
fn write_push<K: Sink>(push: Push, out: &mut K) -> Result<(), LineFault>
    ensures { WritesText (K.taken out.old) (K.taken out.new) (K.faults out.old) (K.faults out.new) result (push_line push) }
{
    match push {
        Push::Up => write_text("push up\n", out),
        Push::Down => write_text("push down\n", out),
    }
}

/// Writes the line that says that stars are written, where they are.
fn write_stars_mark<K: Sink>(stars: bool, out: &mut K) -> Result<(), LineFault>
    ensures { WritesText (K.taken out.old) (K.taken out.new) (K.faults out.old) (K.faults out.new) result (stars_line stars) }
{
    if stars {
        write_text("stars\n", out)
    } else {
        Ok(())
    }
}

/// Writes the head: the name of the format, the pair, the order of pushing, and whether stars are written.
/// After a fault the sink has taken a prefix of it.
pub fn write_head<K: Sink>(alloc: Global, form: &TextForm, out: &mut K) -> Result<(), LineFault>
    ensures { WritesText (K.taken out.old) (K.taken out.new) (K.faults out.old) (K.faults out.new) result (head_text form.now.pair (form_of form.now)) }
{
    write_text("ntfe 1\n", out)?;
    write_pair_lines(alloc, &form.pair, out)?;
    write_push(form.push, out)?;
    write_stars_mark(form.stars, out)
}
