//! `faces`: the points and two-faces of a pair.
ghost use Rattle.std.specs.Prelude.{◌≡◌, ◌≤◌, ◌+◌};
ghost use Rattle.io_edge.specs.Lines.{WritesText};
ghost use Rattle.ntfe_model.specs.FacesText.{faces_text};
ghost use Rattle.ntfe_run.specs.Commands.{faces_room};
ghost use Rattle.ntfe_run.specs.Rooms.{IsAnswered};

use crate::numbered::write_numbered;
use crate::reading::read_geometry;
use crate::status::{Status, status_of_lines};
use class_text::write_count;
use io_edge::{LineFault, Sink, Source};
use ntfe_model::Geometry;
use std::alloc::Global;

/// Writes the points, numbered from 1, and the two-faces, numbered from 0.
fn write_faces<K: Sink>(alloc: Global, geometry: &Geometry, out: &mut K) -> Result<(), LineFault>
    ensures { WritesText (K.taken out.old) (K.taken out.new) (K.faults out.old) (K.faults out.new) result (faces_text geometry.now) }
{
    let points = geometry.points();
    let faces = geometry.faces();
    write_count(alloc, "points", points.len() as u64, out)?;
    write_numbered(alloc, points, 1, out)?;
    write_count(alloc, "faces", faces.len() as u64, out)?;
    write_numbered(alloc, faces, 0, out)
}

/// Reads a pair, and writes its points and two-faces.
pub fn list_faces<S: Source, K: Sink>(alloc: Global, source: &mut S, out: &mut K) -> Status
    ensures answer { IsAnswered faces_room (record {
      left = record { before = S.left source.old; after = S.left source.new };
      read_faults = record { before = S.faults source.old; after = S.faults source.new };
      taken = record { before = K.taken out.old; after = K.taken out.new };
      write_faults = record { before = K.faults out.old; after = K.faults out.new };
    }) result }
    ensures turns { S.turns source.new ≤ S.turns source.old + 65538 }
{
    match read_geometry(alloc, source) {
        Ok(geometry) => status_of_lines(write_faces(alloc, &geometry, out)),
        Err(status) => status,
    }
}
