//! `demo`: how many classes a product of two polygons has, up to a limit.
ghost use Rattle.std.specs.Prelude.{◌≡◌, ◌≤◌, ℕ, List, Option, IfOk};
ghost use Rattle.ntfe_run.specs.Commands.{demo_room};
ghost use Rattle.ntfe_run.specs.Demo.{IsDemoOf};
ghost use Rattle.ntfe_run.specs.Dues.{demo_listed};
ghost use Rattle.ntfe_run.specs.Statuses.{TellsCount};
ghost use Rattle.ntfe_run.specs.Tasks.{IsTaskOf};

use crate::commands::classes::nothing_kept;
use crate::demo_lines::write_demo;
use crate::list_task::ListTask;
use crate::status::{Status, status_of_lines};
use crate::tasks::Task;
use io_edge::Sink;
use lattice_points::PointFault;
use ntfe_model::{Geometry, Push};
use ntfe_words::Options;
use polygon_demo::demo;
use std::alloc::{AllocError, Global};
use steal_workers::Served;
use two_faces::geometry;

/// The greatest number of classes that are counted.
const CLASS_LIMIT: u32 = 1000;

/// The product of polygon 1 and the polygon with this number, with its points and two-faces.
fn demo_geometry(alloc: Global, number: u8) -> Result<Geometry, AllocError>
    requires low { 1 ≤ number }
    requires high { number ≤ 5 }
    ensures { IfOk result (IsDemoOf number) }
{
    let pair = demo(alloc, number)?;
    match geometry(alloc, pair) {
        Ok(geometry) => Ok(geometry),
        Err(PointFault::Memory) => Err(AllocError),
        Err(PointFault::TooWide { .. }) => unreachable!(),
        Err(PointFault::TooMany { .. }) => unreachable!(),
    }
}

/// The classes of a geometry up to the limit, with pushing up and without stars.
fn count_task(
    alloc: Global,
    geometry: Geometry,
    workers: u16,
    width: u8,
) -> Result<ListTask, AllocError>
    requires low { 1 ≤ width }
    requires high { width ≤ 62 }
    ensures { IfOk result (λ t. t.listed ≡ demo_listed width geometry) }
{
    let options = Options {
        workers,
        limit: Some(CLASS_LIMIT),
        width,
        push: Push::Up,
        stars: false,
    };
    ListTask::new(alloc, &options, geometry, nothing_kept())
}

/// Writes the lines that tell of the classes that were counted, where the counting came to its end or limit.
pub fn tell_classes<K: Sink>(number: u8, geometry: &Geometry, served: Served, out: &mut K) -> Status
    ensures { TellsCount number geometry.now served (record { before = K.taken out.old; after = K.taken out.new }) (record { before = K.faults out.old; after = K.faults out.new }) result }
{
    match served {
        Served::End { count, last } => {
            status_of_lines(write_demo(number, geometry, count, "end", &last, out))
        }
        Served::Limit { count, last } => {
            status_of_lines(write_demo(number, geometry, count, "limit", &last, out))
        }
        Served::Wide {
            choice,
            step,
            number,
        } => Status::Overflow {
            choice,
            step,
            number,
        },
        Served::Far { face } => Status::Limit { face },
        Served::WriteFault => Status::WriteFault,
        Served::Memory => Status::Memory,
    }
}

/// The classes of the product of polygon 1 and the polygon with this number, from 1 to 5, which are to be counted. Nothing
/// is read or written. The width is from 1 to 62.
pub fn begin_demo(alloc: Global, number: u8, workers: u16, width: u8) -> Task
    requires first { 1 ≤ number }
    requires last { number ≤ 5 }
    requires low { 1 ≤ width }
    requires high { width ≤ 62 }
    ensures { (left taken : Option (List ℕ)) (reads writes : ℕ) → IsTaskOf (demo_room number width) (record {
      left = record { before = left; after = left };
      read_faults = record { before = reads; after = reads };
      taken = record { before = taken; after = taken };
      write_faults = record { before = writes; after = writes };
    }) result }
{
    let Ok(geometry) = demo_geometry(alloc, number) else {
        return Task::Ended(Status::Memory);
    };
    match count_task(alloc, geometry, workers, width) {
        Ok(task) => Task::Counts(number, task),
        Err(_) => Task::Ended(Status::Memory),
    }
}
