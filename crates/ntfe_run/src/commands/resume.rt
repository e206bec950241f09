//! `resume`: the rest of a list of classes, behind what an earlier run wrote.
ghost use Rattle.std.specs.Prelude.{◌≡◌, ◌<◌, ◌≤◌, ◌+◌, ◌^◌, length, IfOk, IfErr};
ghost use Rattle.ntfe_model.specs.Earlier.{IsKeptOf};
ghost use Rattle.class_text.specs.Earlier.{kept_of};
ghost use Rattle.ntfe_run.specs.Commands.{resume_room, form_of_options, begun_limit};
ghost use Rattle.ntfe_run.specs.Earlier.{layout, IsBegunInput, IsBegunRefusal};
ghost use Rattle.ntfe_run.specs.Stops.{IsBegunStop, IsEarlierStop};
ghost use Rattle.ntfe_run.specs.Statuses.{IsReadStop, IsBegunRead, begun_input};
ghost use Rattle.ntfe_run.specs.Tasks.{IsTaskOf};

use crate::commands::classes::text_form;
use crate::inputs::{Stop, geometry_of};
use crate::reading::read_bytes;
use crate::status::{Refusal, Status};
use crate::tasks::{Task, begin_list};
use class_text::{Earlier, EarlierFault, read_earlier};
use io_edge::{Sink, Source};
use ntfe_model::Geometry;
use ntfe_words::Options;
use pair_text::split_at_output;
use std::alloc::Global;

/// The greatest number of bytes that are read of a pair and an earlier output.
const BEGUN_LIMIT: u32 = 67_108_864;

/// A pair with its points and two-faces, and what is kept of an earlier output.
#[derive(Drop)]
pub struct Resumed {
    pub geometry: Geometry,
    pub earlier: Earlier,
}

/// What is kept of an earlier output of a geometry.
fn earlier_of(
    alloc: Global,
    options: &Options,
    geometry: &Geometry,
    bytes: &[u8],
) -> Result<Earlier, Stop>
    requires { length bytes.now < 2 ^ 32 }
    ensures ok { IfOk result (λ e. IsKeptOf (layout (form_of_options options.now) geometry.now) bytes.now (kept_of e)) }
    ensures err { IfErr result (IsEarlierStop (form_of_options options.now) geometry.now bytes.now) }
{
    let Ok(form) = text_form(alloc, options, geometry, 0) else {
        return Err(Stop::Memory);
    };
    match read_earlier(alloc, &form, bytes) {
        Ok(earlier) => Ok(earlier),
        Err(EarlierFault::Memory) => Err(Stop::Memory),
        Err(fault) => Err(Stop::Refused(Refusal::Earlier(fault))),
    }
}

/// The pair that the bytes hold, with its points and two-faces, and what is kept of the earlier output behind it. The first
/// refusal in the order output line, text, pair, points, earlier output is answered.
fn begun_of(alloc: Global, options: &Options, bytes: &[u8]) -> Result<Resumed, Stop>
    requires { length bytes.now < 2 ^ 32 }
    ensures ok { IfOk result (λ b. IsBegunInput (form_of_options options.now) bytes.now (begun_input b)) }
    ensures err { IfErr result (IsBegunStop (form_of_options options.now) bytes.now) }
{
    let Some((before, behind)) = split_at_output(bytes) else {
        return Err(Stop::Refused(Refusal::NoOutput));
    };
    let geometry = match geometry_of(alloc, before) {
        Ok(geometry) => geometry,
        Err(stop) => return Err(stop),
    };
    match earlier_of(alloc, options, &geometry, behind) {
        Ok(earlier) => Ok(Resumed { geometry, earlier }),
        Err(stop) => Err(stop),
    }
}

/// What the source holds, or the status that ends the run.
fn read_begun<S: Source>(
    alloc: Global,
    options: &Options,
    source: &mut S,
) -> Result<Resumed, Status>
    ensures ok { IfOk result (IsBegunRead (form_of_options options.now) (record { before = S.left source.old; after = S.left source.new })) }
    ensures err { IfErr result (IsReadStop begun_limit (IsBegunRefusal (form_of_options options.now)) (record { before = S.left source.old; after = S.left source.new }) (record { before = S.faults source.old; after = S.faults source.new })) }
    ensures later { S.faults source.old ≤ S.faults source.new }
    ensures turns { S.turns source.new ≤ S.turns source.old + 67108866 }
{
    let bytes = match read_bytes(alloc, source, BEGUN_LIMIT) {
        Ok(bytes) => bytes,
        Err(status) => return Err(status),
    };
    match begun_of(alloc, options, bytes.as_slice()) {
        Ok(begun) => Ok(begun),
        Err(Stop::Refused(refusal)) => Err(Status::Refused(refusal)),
        Err(Stop::Memory) => Err(Status::Memory),
    }
}

/// Reads a pair and an earlier output, and writes the head of the list of the pair's classes where nothing is kept. The
/// width is from 1 to 62.
pub fn begin_resume<S: Source, K: Sink>(
    alloc: Global,
    options: &Options,
    source: &mut S,
    out: &mut K,
) -> Task
    requires low { 1 ≤ options.now.width }
    requires high { options.now.width ≤ 62 }
    ensures task { IsTaskOf (resume_room options.now) (record {
      left = record { before = S.left source.old; after = S.left source.new };
      read_faults = record { before = S.faults source.old; after = S.faults source.new };
      taken = record { before = K.taken out.old; after = K.taken out.new };
      write_faults = record { before = K.faults out.old; after = K.faults out.new };
    }) result }
    ensures turns { S.turns source.new ≤ S.turns source.old + 67108866 }
{
    match read_begun(alloc, options, source) {
        Ok(begun) => begin_list(alloc, options, begun.geometry, begun.earlier, out),
        Err(status) => Task::Ended(status),
    }
}
