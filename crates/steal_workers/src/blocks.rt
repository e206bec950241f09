//! The block of a class.
ghost use Rattle.std.specs.Prelude.{◌≡◌, length};
ghost use Rattle.class_text.specs.Forms.{form_of};
ghost use Rattle.steal_workers.specs.Forms.{IsFormOf};
ghost use Rattle.steal_workers.specs.Blocks.{WritesBlock};

use crate::stars::star_of;
use class_text::{TextForm, write_class};
use io_edge::{LineFault, Sink};
use ntfe_model::{Choice, Geometry, Heights};
use std::alloc::Global;

/// Writes the block of a class, with its star where stars are written. The star is made before the block is begun.
pub fn write_block<K: Sink>(
    alloc: Global,
    form: &TextForm,
    geometry: &Geometry,
    choice: &Choice,
    heights: &Heights,
    out: &mut K,
) -> Result<(), LineFault>
    requires form { IsFormOf geometry.now form.now }
    requires faces { length choice.now ≡ form.now.faces }
    requires points { length heights.now ≡ form.now.points }
    ensures { WritesBlock geometry.now (form_of form.now) choice.now heights.now (K.taken out.old) (K.taken out.new) (K.faults out.old) (K.faults out.new) result }
{
    let Ok(star) = star_of(alloc, form, geometry, heights) else {
        return Err(LineFault::Memory);
    };
    write_class(alloc, form, choice, heights, star.as_ref(), out)
}
