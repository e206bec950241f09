//! The triples of a two-face's points that stand together in a star, as they come.
ghost use Rattle.std.specs.Prelude.{◌≡◌, OnOk, Contains};
ghost use Rattle.ntfe_model.specs.Stars.{AreTogether};
ghost use Rattle.star_builder.specs.Gathered.{Gathers};
ghost use Rattle.star_builder.specs.FaceCharts.{patch, AreLeft};

use crate::face_chart::FaceChart;
use std::alloc::AllocError;

/// Adds the triples with these first two points and a third of the simplex.
fn gather_third(
    chart: &FaceChart,
    simplex: &[u32; 4],
    a: u32,
    b: u32,
    triples: &mut Vec<[u32; 3]>,
) -> Result<(), AllocError>
    ensures { OnOk result (Gathers (λ i j k. (i ≡ a) × (j ≡ b) × Contains simplex.now k × AreLeft (patch chart.now.numbers.now chart.now.points.now) i j k) triples.old.items triples.new.items) }
{
    for c in simplex {
        if chart.is_left(a, b, *c) {
            triples.push([a, b, *c])?;
        }
    }
    Ok(())
}

/// Adds the triples with this first point and two others of the simplex.
fn gather_second(
    chart: &FaceChart,
    simplex: &[u32; 4],
    a: u32,
    triples: &mut Vec<[u32; 3]>,
) -> Result<(), AllocError>
    ensures { OnOk result (Gathers (λ i j k. (i ≡ a) × Contains simplex.now j × Contains simplex.now k × AreLeft (patch chart.now.numbers.now chart.now.points.now) i j k) triples.old.items triples.new.items) }
{
    for b in simplex {
        gather_third(chart, simplex, a, *b, triples)?;
    }
    Ok(())
}

/// Adds the triples of points of the simplex.
fn gather_first(
    chart: &FaceChart,
    simplex: &[u32; 4],
    triples: &mut Vec<[u32; 3]>,
) -> Result<(), AllocError>
    ensures { OnOk result (Gathers (λ i j k. Contains simplex.now i × Contains simplex.now j × Contains simplex.now k × AreLeft (patch chart.now.numbers.now chart.now.points.now) i j k) triples.old.items triples.new.items) }
{
    for a in simplex {
        if chart.has(*a) {
            gather_second(chart, simplex, *a, triples)?;
        }
    }
    Ok(())
}

/// Adds the triples of points that stand together in a simplex of the star.
pub fn gather_all(
    chart: &FaceChart,
    star: &[[u32; 4]],
    triples: &mut Vec<[u32; 3]>,
) -> Result<(), AllocError>
    ensures { OnOk result (Gathers (λ i j k. AreTogether star.now i j k × AreLeft (patch chart.now.numbers.now chart.now.points.now) i j k) triples.old.items triples.new.items) }
{
    for simplex in star {
        gather_first(chart, simplex, triples)?;
    }
    Ok(())
}
