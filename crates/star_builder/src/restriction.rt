//! What a star leaves on a two-face.
ghost use Rattle.std.specs.Prelude.{◌≡◌, ◌<◌, length, map, IfOk};
ghost use Rattle.ntfe_model.specs.Charts.{patch_at};
ghost use Rattle.ntfe_model.specs.Stars.{IsRestriction};
ghost use Rattle.star_builder.specs.Gathered.{triangle_of};

use crate::face_chart::FaceChart;
use crate::left_triples::gather_all;
use crate::star::Star;
use ntfe_model::{Geometry, List, Triangle};
use std::alloc::{AllocError, Global};

/// The triples as triangles.
fn triangles_of(alloc: Global, triples: &[[u32; 3]]) -> Result<Vec<Triangle>, AllocError>
    ensures { IfOk result (λ v. v.items ≡ map triangle_of triples.now) }
{
    triples
        .iter()
        .map(|t| Triangle {
            a: t[0],
            b: t[1],
            c: t[2],
        })
        .collect(alloc)
}

/// The triples of the two-face's points that stand together in a simplex of the star and turn to the left, each once,
/// with the least number first, in lexicographic order. Of a fine star these are the triangles of the two-face that
/// it induces (MacFadden, arXiv 2309.10855).
///
/// Two-faces are numbered from 0. An error says that memory ran out.
pub fn restrict(
    alloc: Global,
    star: &Star,
    geometry: &Geometry,
    face: u32,
) -> Result<List<Triangle>, AllocError>
    requires face { face < length geometry.now.faces }
    ensures restriction { IfOk result (λ ts. IsRestriction (patch_at geometry.now face) star.now.simplices ts) }
{
    let numbers = geometry.faces()[face as usize].points.as_slice();
    let chart = FaceChart::new(geometry.points(), numbers);
    let mut triples = Vec::new(alloc);
    gather_all(&chart, star.simplices.as_slice(), &mut triples)?;
    triples.sort_unstable();
    triples.dedup();
    let triangles = triangles_of(alloc, triples.as_slice())?;
    Ok(List::from_vec(triangles))
}
