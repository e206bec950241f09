//! The seven lines of `demo`, written without taking memory.
ghost use Rattle.std.specs.Prelude.{◌≡◌, unwrap_or, []};
ghost use Rattle.io_edge.specs.Lines.{WritesText};
ghost use Rattle.ntfe_run.specs.Demo.{size_lines, classes_line, last_line, demo_text};

use crate::fragment::Fragment::{Number, Text};
use crate::fragment::write_fragments;
use crate::pieces::write_numbers;
use io_edge::{LineFault, Sink, write_text};
use ntfe_model::{Choice, Geometry};

/// Writes the number of the demo, and the sizes of its pair and geometry.
fn write_sizes<K: Sink>(number: u8, geometry: &Geometry, out: &mut K) -> Result<(), LineFault>
    ensures { WritesText (K.taken out.old) (K.taken out.new) (K.faults out.old) (K.faults out.new) result (size_lines number geometry.now) }
{
    let pair = geometry.pair();
    write_fragments(
        &[
            Text("demo "),
            Number(u64::from(number)),
            Text("\nvertices "),
            Number(pair.vertices().len() as u64),
            Text("\ndual "),
            Number(pair.dual().len() as u64),
            Text("\npoints "),
            Number(geometry.points().len() as u64),
            Text("\nfaces "),
            Number(geometry.faces().len() as u64),
            Text("\n"),
        ],
        out,
    )
}

/// The items of a choice, none where there is none.
fn items(choice: &Option<Choice>) -> &[u32]
    ensures { result.now ≡ unwrap_or choice.now [] }
{
    match choice {
        Some(choice) => choice.0.as_slice(),
        None => &[],
    }
}

/// Writes how many classes were counted, and how that ended.
fn write_classes_line<K: Sink>(count: u64, how: &str, out: &mut K) -> Result<(), LineFault>
    ensures { WritesText (K.taken out.old) (K.taken out.new) (K.faults out.old) (K.faults out.new) result (classes_line count how.now) }
{
    write_fragments(
        &[
            Text("classes "),
            Number(count),
            Text(" "),
            Text(how),
            Text("\n"),
        ],
        out,
    )
}

/// Writes the items of the last choice that was counted.
fn write_last_line<K: Sink>(last: &Option<Choice>, out: &mut K) -> Result<(), LineFault>
    ensures { WritesText (K.taken out.old) (K.taken out.new) (K.faults out.old) (K.faults out.new) result (last_line last.now) }
{
    write_text("last", out)?;
    write_numbers(items(last), out)?;
    write_text("\n", out)
}

/// Writes the seven lines: the sizes, how many classes were counted, how that ended, and the last of
/// them.
pub fn write_demo<K: Sink>(
    number: u8,
    geometry: &Geometry,
    count: u64,
    how: &str,
    last: &Option<Choice>,
    out: &mut K,
) -> Result<(), LineFault>
    ensures { WritesText (K.taken out.old) (K.taken out.new) (K.faults out.old) (K.faults out.new) result (demo_text number geometry.now count how.now last.now) }
{
    write_sizes(number, geometry, out)?;
    write_classes_line(count, how, out)?;
    write_last_line(last, out)
}
