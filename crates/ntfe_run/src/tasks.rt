//! What a run has to do after its input is read.
ghost use Rattle.std.specs.Prelude.{◌≤◌};
ghost use Rattle.ntfe_model.specs.Keys.{IsStart};
ghost use Rattle.class_text.specs.Earlier.{kept_of};
ghost use Rattle.ntfe_run.specs.Dues.{due_of};
ghost use Rattle.ntfe_run.specs.Tasks.{IsListTask};

use crate::list_task::ListTask;
use crate::status::{Status, status_of_lines};
use class_text::Earlier;
use io_edge::Sink;
use ntfe_model::Geometry;
use ntfe_words::Options;
use std::alloc::Global;

/// What a run has to do after its input is read.
#[derive(Drop)]
pub enum Task {
    /// Nothing: it has ended.
    Ended(Status),
    /// To list classes. The head is written.
    Lists(ListTask),
    /// To count the classes of a product of two polygons, of which this is the number. Nothing is written.
    Counts(u8, ListTask),
}

/// Writes the head of a list, where it is due.
pub fn begin_list<K: Sink>(
    alloc: Global,
    options: &Options,
    geometry: Geometry,
    earlier: Earlier,
    out: &mut K,
) -> Task
    requires low { 1 ≤ options.now.width }
    requires high { options.now.width ≤ 62 }
    requires start { IsStart geometry earlier.last }
    ensures { IsListTask (due_of options.now geometry (kept_of earlier)) (record { before = K.taken out.old; after = K.taken out.new }) (record { before = K.faults out.old; after = K.faults out.new }) result }
{
    let Ok(task) = ListTask::new(alloc, options, geometry, earlier) else {
        return Task::Ended(Status::Memory);
    };
    match task.write_head(alloc, out) {
        Ok(()) => Task::Lists(task),
        Err(fault) => Task::Ended(status_of_lines(Err(fault))),
    }
}
