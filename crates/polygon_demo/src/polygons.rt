//! The five polygons of the demo.
ghost use Rattle.std.specs.Prelude.{◌≡◌, ◌≤◌};
ghost use Rattle.polygon_demo.specs.Polygons.{polygon};

/// A lattice polygon around the origin: its vertices, and those of its dual.
#[derive(Drop)]
pub struct Polygon {
    pub vertices: &'static [(i64, i64)],
    pub dual: &'static [(i64, i64)],
}

/// The polygon with this number.
pub fn numbered(number: u8) -> Polygon
    requires low { 1 ≤ number }
    requires high { number ≤ 5 }
    ensures vertices { result.vertices.now ≡ (polygon number).vertices }
    ensures dual { result.dual.now ≡ (polygon number).dual }
{
    match number {
        1 => Polygon {
            vertices: &[(1, 0), (0, 1), (-1, -1)],
            dual: &[(-1, -1), (2, -1), (-1, 2)],
        },
        2 => Polygon {
            vertices: &[(1, 0), (0, 1), (-1, 0), (0, -1)],
            dual: &[(-1, -1), (1, -1), (1, 1), (-1, 1)],
        },
        3 => Polygon {
            vertices: &[(1, 0), (0, 1), (-1, 1), (0, -1)],
            dual: &[(-1, -1), (0, -1), (2, 1), (-1, 1)],
        },
        4 => Polygon {
            vertices: &[(1, 0), (1, 1), (0, 1), (-1, 0), (0, -1)],
            dual: &[(-1, 0), (0, -1), (1, -1), (1, 1), (-1, 1)],
        },
        _ => Polygon {
            vertices: &[(1, 0), (1, 1), (0, 1), (-1, 0), (-1, -1), (0, -1)],
            dual: &[(-1, 0), (0, -1), (1, -1), (1, 0), (0, 1), (-1, 1)],
        },
    }
}
