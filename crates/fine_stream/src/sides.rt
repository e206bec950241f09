//! Sides that cannot stand together.
ghost use Rattle.std.specs.Prelude.{◌≡◌, ℕ, ◌++◌, ◌∷◌, [], List, true, false};
ghost use Rattle.ntfe_model.specs.Charts.{AreApart};
ghost use Rattle.fine_stream.specs.Paths.{AreOpposite, IsUnitSide, IsBeyond, AreInConflict, AreCompatible, IsPart};
ghost use Rattle.ntfe_model.specs.Charts.{IsOf, IsUnit, turn};
ghost use Rattle.ntfe_model.specs.Triangulations.{HasSide};
ghost use Rattle.ntfe_model.specs.declared.triangle.Triangle.{Triangle as AsTriangle};
ghost use Rattle.fine_stream.specs.Places.{IsPlaceOf, ArePlaces, TellsConflicts};

use face_chart::Chart;
use ntfe_model::Triangle;

/// Whether of two points of the face one lies to the left of (x, y), and one to the right.
fn separates(chart: &Chart, x: u32, y: u32, z: u32, w: u32) -> bool
    requires x { IsOf chart.now x }
    requires y { IsOf chart.now y }
    requires z { IsOf chart.now z }
    requires w { IsOf chart.now w }
    ensures when_true { result ≡ true → AreOpposite (turn chart.now x y z) (turn chart.now x y w) }
    ensures when_false { result ≡ false → ¬ (AreOpposite (turn chart.now x y z) (turn chart.now x y w)) }
{
    let first = chart.orient(x, y, z);
    let second = chart.orient(x, y, w);
    if first == 1 {
        return second == -1;
    }
    if first == -1 {
        return second == 1;
    }
    false
}

/// Whether (x, y) and (z, w) are one directed side.
fn are_one(x: u32, y: u32, z: u32, w: u32) -> bool
    ensures when_true { result ≡ true → (x ≡ z) × (y ≡ w) }
    ensures when_false { result ≡ false → ¬ ((x ≡ z) × (y ≡ w)) }
{
    x == z && y == w
}

/// Whether sides (x, y) and (z, w) of unit triples are one directed side, or have different ends and cross.
fn conflict(chart: &Chart, x: u32, y: u32, z: u32, w: u32) -> bool
    requires apart { AreApart chart.now }
    requires first { IsUnitSide chart.now x y }
    requires second { IsUnitSide chart.now z w }
    ensures when_true { result ≡ true → AreInConflict chart.now x y z w }
    ensures when_false { result ≡ false → ¬ (AreInConflict chart.now x y z w) }
{
    if are_one(x, y, z, w) {
        return true;
    }
    if are_one(x, y, w, z) {
        return false;
    }
    if !separates(chart, x, y, z, w) {
        return false;
    }
    separates(chart, z, w, x, y)
}

/// Whether a side (x, y) of a unit triple is in conflict with a side of the triangle.
fn has_conflict(chart: &Chart, x: u32, y: u32, u: &Triangle) -> bool
    requires apart { AreApart chart.now }
    requires first { IsUnitSide chart.now x y }
    requires second { IsUnit chart.now u.now.a u.now.b u.now.c }
    ensures when_true { result ≡ true → (z : ℕ) × (w : ℕ) × HasSide u.now z w × AreInConflict chart.now x y z w }
    ensures when_false { result ≡ false → (z w : ℕ) → HasSide u.now z w → ¬ (AreInConflict chart.now x y z w) }
{
    if conflict(chart, x, y, u.a, u.b) {
        return true;
    }
    if conflict(chart, x, y, u.b, u.c) {
        return true;
    }
    conflict(chart, x, y, u.c, u.a)
}

/// Whether no corner of the triangle lies to the left of (x, y).
fn is_beyond(chart: &Chart, x: u32, y: u32, u: &Triangle) -> bool
    requires x { IsOf chart.now x }
    requires y { IsOf chart.now y }
    requires a { IsOf chart.now u.now.a }
    requires b { IsOf chart.now u.now.b }
    requires c { IsOf chart.now u.now.c }
    ensures { result ≡ true → IsBeyond chart.now x y u.now }
{
    chart.orient(x, y, u.a) != 1 && chart.orient(x, y, u.b) != 1 && chart.orient(x, y, u.c) != 1
}

/// Whether the second triangle lies beyond a side of the first one. Then the two are compatible.
fn is_beyond_side(chart: &Chart, t: &Triangle, u: &Triangle) -> bool
    requires apart { AreApart chart.now }
    requires first { IsUnit chart.now t.now.a t.now.b t.now.c }
    requires second { IsUnit chart.now u.now.a u.now.b u.now.c }
    ensures { result ≡ true → AreCompatible chart.now t.now u.now }
{
    if is_beyond(chart, t.a, t.b, u) {
        return true;
    }
    if is_beyond(chart, t.b, t.c, u) {
        return true;
    }
    is_beyond(chart, t.c, t.a, u)
}

/// Whether no side of one triangle is in conflict with a side of the other.
pub fn are_compatible(chart: &Chart, t: &Triangle, u: &Triangle) -> bool
    requires apart { AreApart chart.now }
    requires first { IsUnit chart.now t.now.a t.now.b t.now.c }
    requires second { IsUnit chart.now u.now.a u.now.b u.now.c }
    ensures when_true { result ≡ true → AreCompatible chart.now t.now u.now }
    ensures when_false { result ≡ false → ¬ (AreCompatible chart.now t.now u.now) }
{
    if is_beyond_side(chart, u, t) {
        return true;
    }
    if is_beyond_side(chart, t, u) {
        return true;
    }
    if has_conflict(chart, t.a, t.b, u) {
        return false;
    }
    if has_conflict(chart, t.b, t.c, u) {
        return false;
    }
    !has_conflict(chart, t.c, t.a, u)
}

/// Whether no side of u is in conflict with a side of t. The row tells it for the first places of a table;
/// u stands there at this place, if it does.
fn stands_with(chart: &Chart, row: &[bool], place: usize, u: &Triangle, t: &Triangle) -> bool
    requires apart { AreApart chart.now }
    requires first { IsUnit chart.now u.now.a u.now.b u.now.c }
    requires second { IsUnit chart.now t.now.a t.now.b t.now.c }
    requires row { (triples : List AsTriangle) × TellsConflicts chart.now triples t.now row.now × IsPlaceOf triples place u.now }
    ensures when_true { result ≡ true → AreCompatible chart.now u.now t.now }
    ensures when_false { result ≡ false → ¬ (AreCompatible chart.now u.now t.now) }
{
    match row.get(place) {
        Some(conflict) => !*conflict,
        None => are_compatible(chart, u, t),
    }
}

/// Whether a triangle of points of the face can stand with the triangles. The row tells of its conflicts with
/// the first places of a table; these are the places of the triangles there.
pub fn fits(
    chart: &Chart,
    row: &[bool],
    triangles: &[Triangle],
    places: &[usize],
    t: &Triangle,
) -> bool
    requires apart { AreApart chart.now }
    requires points { IsOf chart.now t.now.a × IsOf chart.now t.now.b × IsOf chart.now t.now.c }
    requires part { IsPart chart.now triangles.now }
    requires row { (triples : List AsTriangle) × TellsConflicts chart.now triples t.now row.now × ArePlaces triples places.now triangles.now }
    ensures when_true { result ≡ true → IsPart chart.now (triangles.now ++ t.now ∷ []) }
    ensures when_false { result ≡ false → ¬ (IsPart chart.now (triangles.now ++ t.now ∷ [])) }
{
    if !chart.unit(t.a, t.b, t.c) {
        return false;
    }
    // those that came last are nearest, and most often in the way
    let mut left = triangles.len();
    while left > 0 {
        left -= 1;
        if !stands_with(chart, row, places[left], &triangles[left], t) {
            return false;
        }
    }
    true
}
