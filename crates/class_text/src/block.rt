//! The blocks of the text, one for each class, and its last line.
ghost use Rattle.std.specs.Prelude.{◌≡◌, ◌↔◌, length, flat_map, IsSome, IsTrue, IfOk, string_bytes};
ghost use Rattle.std.specs.Option.{option_map};
ghost use Rattle.io_edge.specs.Lines.{WritesText};
ghost use Rattle.ntfe_model.specs.RunText.{block_text, star_lines, last_line, number_line, signed_line};

use crate::form::TextForm;
use crate::head::write_count;
use crate::lines::{Line, write_items};
use crate::numbers::{numbers_text, signed_text};
use io_edge::{LineFault, Sink, write_text};
use ntfe_model::{Choice, Heights};
use star_builder::Star;
use std::alloc::{AllocError, Global};

impl Line for [u32; 4] {
    ghost use Rattle.std.specs.Prelude.{codes};
    ghost use Rattle.ntfe_model.specs.RunText.{number_line};

    ghost line = { number_line (codes "simplex") };

    fn text(&self, alloc: Global) -> Result<String, AllocError> {
        numbers_text(alloc, "simplex", self)
    }
}

/// Writes a word and numbers as one line.
fn write_numbers<K: Sink>(
    alloc: Global,
    word: &str,
    numbers: &[u32],
    out: &mut K,
) -> Result<(), LineFault>
    ensures { WritesText (K.taken out.old) (K.taken out.new) (K.faults out.old) (K.faults out.new) result (number_line word.now numbers.now) }
{
    match numbers_text(alloc, word, numbers) {
        Ok(line) => write_text(&line, out),
        Err(_) => Err(LineFault::Memory),
    }
}

/// Writes a word and signed numbers as one line.
fn write_signed<K: Sink>(
    alloc: Global,
    word: &str,
    numbers: &[i64],
    out: &mut K,
) -> Result<(), LineFault>
    ensures { WritesText (K.taken out.old) (K.taken out.new) (K.faults out.old) (K.faults out.new) result (signed_line word.now numbers.now) }
{
    match signed_text(alloc, word, numbers) {
        Ok(line) => write_text(&line, out),
        Err(_) => Err(LineFault::Memory),
    }
}

/// Writes the lines of a star, where one is given.
fn write_star<K: Sink>(alloc: Global, star: Option<&Star>, out: &mut K) -> Result<(), LineFault>
    ensures { WritesText (K.taken out.old) (K.taken out.new) (K.faults out.old) (K.faults out.new) result (star_lines (option_map (λ s. s.now.simplices) star.entry)) }
{
    let Some(star) = star else {
        return Ok(());
    };
    let simplices = star.simplices.as_slice();
    write_count(alloc, "star", simplices.len() as u64, out)?;
    write_items(alloc, simplices, out)
}

/// Writes the block of a class: its choice, its heights and, with stars, its star.
/// After a fault the sink has taken a prefix of it.
pub fn write_class<K: Sink>(
    alloc: Global,
    form: &TextForm,
    choice: &Choice,
    heights: &Heights,
    star: Option<&Star>,
    out: &mut K,
) -> Result<(), LineFault>
    requires faces { length choice.now ≡ form.now.faces }
    requires points { length heights.now ≡ form.now.points }
    requires star { IsSome star ↔ IsTrue form.now.stars }
    ensures { WritesText (K.taken out.old) (K.taken out.new) (K.faults out.old) (K.faults out.new) result
        (block_text (record { choice = choice.now; heights = heights.now; star = option_map (λ s. s.now.simplices) star.entry })) }
{
    let has_star = star.is_some();
    prove!(has_star == form.stars);
    write_numbers(alloc, "class", choice.0.as_slice(), out)?;
    write_signed(alloc, "heights", heights.0.as_slice(), out)?;
    write_star(alloc, star, out)
}

/// Writes the last line: `end` or, where a limit was reached, `limit`, with the number of classes.
pub fn write_end<K: Sink>(
    alloc: Global,
    limited: bool,
    count: u64,
    out: &mut K,
) -> Result<(), LineFault>
    ensures { WritesText (K.taken out.old) (K.taken out.new) (K.faults out.old) (K.faults out.new) result (last_line limited count) }
{
    if limited {
        write_count(alloc, "limit", count, out)
    } else {
        write_count(alloc, "end", count, out)
    }
}
