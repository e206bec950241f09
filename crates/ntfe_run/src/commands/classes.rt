//! `classes`: the classes of a pair.
ghost use Rattle.std.specs.Prelude.{◌≡◌, ◌≤◌, ◌+◌, IfOk};
ghost use Rattle.steal_workers.specs.Forms.{IsFormOf};
ghost use Rattle.ntfe_model.specs.RunText.{nothing_kept};
ghost use Rattle.class_text.specs.Earlier.{kept_of};
ghost use Rattle.ntfe_run.specs.Commands.{classes_room};
ghost use Rattle.ntfe_run.specs.Tasks.{IsTaskOf};

use crate::reading::read_geometry;
use crate::tasks::{Task, begin_list};
use class_text::{Earlier, TextForm};
use io_edge::{Sink, Source};
use ntfe_model::Geometry;
use ntfe_words::Options;
use std::alloc::{AllocError, Global};

/// What the text depends on beside the classes, where so many blocks are kept.
pub fn text_form(
    alloc: Global,
    options: &Options,
    geometry: &Geometry,
    kept: u64,
) -> Result<TextForm, AllocError>
    ensures form { IfOk result (λ f. IsFormOf geometry.now f) }
    ensures options { IfOk result (λ f. (f.push ≡ options.now.push) × (f.stars ≡ options.now.stars) × (f.kept ≡ kept)) }
{
    let pair = geometry.pair().try_clone(alloc)?;
    Ok(TextForm {
        pair,
        push: options.push,
        stars: options.stars,
        points: geometry.points().len() as u32,
        faces: geometry.faces().len() as u32,
        kept,
    })
}

/// What is kept where there is no earlier output.
pub fn nothing_kept() -> Earlier
    ensures { kept_of result ≡ nothing_kept }
{
    Earlier {
        kept: 0,
        last: None,
        count: 0,
    }
}

/// Reads a pair, and writes the head of the list of its classes. The width is from 1 to 62.
pub fn begin_classes<S: Source, K: Sink>(
    alloc: Global,
    options: &Options,
    source: &mut S,
    out: &mut K,
) -> Task
    requires low { 1 ≤ options.now.width }
    requires high { options.now.width ≤ 62 }
    ensures task { IsTaskOf (classes_room options.now) (record {
      left = record { before = S.left source.old; after = S.left source.new };
      read_faults = record { before = S.faults source.old; after = S.faults source.new };
      taken = record { before = K.taken out.old; after = K.taken out.new };
      write_faults = record { before = K.faults out.old; after = K.faults out.new };
    }) result }
    ensures turns { S.turns source.new ≤ S.turns source.old + 65538 }
{
    match read_geometry(alloc, source) {
        Ok(geometry) => begin_list(alloc, options, geometry, nothing_kept(), out),
        Err(status) => Task::Ended(status),
    }
}
