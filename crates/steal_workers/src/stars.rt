//! The star of a class.
ghost use Rattle.std.specs.Prelude.{◌≡◌, IfOk, length};
ghost use Rattle.std.specs.Option.{option_map};
ghost use Rattle.class_text.specs.Forms.{form_of};
ghost use Rattle.steal_workers.specs.Blocks.{IsStarAt};

use class_text::TextForm;
use ntfe_model::{Geometry, Heights};
use star_builder::{Star, build};
use std::alloc::{AllocError, Global};

/// The star of the heights, where stars are written.
pub fn star_of(
    alloc: Global,
    form: &TextForm,
    geometry: &Geometry,
    heights: &Heights,
) -> Result<Option<Star>, AllocError>
    requires { length heights.now ≡ length geometry.now.points }
    ensures { IfOk result (λ s. IsStarAt geometry.now (form_of form.now) heights.now (option_map (λ x. x.simplices) s)) }
{
    if !form.stars {
        return Ok(None);
    }
    let star = build(alloc, geometry, heights, form.push)?;
    Ok(Some(star))
}
