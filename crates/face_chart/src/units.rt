//! Unit triples, by their definition.
ghost use Rattle.std.specs.Prelude.{◌≡◌, ◌≢◌, ℕ, ◌<◌, ◌≤◌, ◌^◌, true, false, pos, ◌<ℤ◌, unsigned_abs, MatchOption};
ghost use Rattle.ntfe_nums.specs.Sizes.{AreWithin};
ghost use Rattle.ntfe_nums.specs.Vectors.{area};
ghost use Rattle.ntfe_model.specs.Pairs.{IsSmall};
ghost use Rattle.ntfe_model.specs.Charts.{axes, place, reached, IsOf, IsUnit};
ghost use Rattle.face_chart.specs.Units.{AreSmallMultiples, reached_at as reached_coordinate, IsReached, IsUnitArea};

use crate::table::Table;
use ntfe_model::Vec4;

/// Whole multiples of two sides.
#[derive(Clone, Copy, Drop)]
pub struct Multiples {
    pub s: i64,
    pub t: i64,
}

/// a + s (b - a) + t (c - a), in the coordinate at this place from 0.
fn reached_at(a: &[i64; 4], b: &[i64; 4], c: &[i64; 4], m: &Multiples, i: usize) -> i64
    requires a { AreWithin 1023 a.now }
    requires b { AreWithin 1023 b.now }
    requires c { AreWithin 1023 c.now }
    requires multiples { AreSmallMultiples m.now }
    requires known { i < 4 }
    ensures value { result ≡ reached_coordinate a.now b.now c.now m.now i }
    ensures size { unsigned_abs result ≤ 2 ^ 40 }
{
    a[i] + (m.s * (b[i] - a[i]) + m.t * (c[i] - a[i]))
}

/// Whether p is a + s (b - a) + t (c - a).
fn is_reached(a: &Vec4, b: &Vec4, c: &Vec4, m: &Multiples, p: &Vec4) -> bool
    requires a { IsSmall a.now }
    requires b { IsSmall b.now }
    requires c { IsSmall c.now }
    requires p { IsSmall p.now }
    requires multiples { AreSmallMultiples m.now }
    ensures when_true { result ≡ true → p.now ≡ reached a.now b.now c.now m.now.s m.now.t }
    ensures when_false { result ≡ false → p.now ≢ reached a.now b.now c.now m.now.s m.now.t }
{
    let a = a.coordinates();
    let b = b.coordinates();
    let c = c.coordinates();
    let p = p.coordinates();
    for i in 0..4 {
        if reached_at(a, b, c, m, i) != p[i] {
            return false;
        }
    }
    true
}

/// Whether p is reached from a by whole multiples of the sides b - a and c - a of a triple that
/// turns to the left. The multiples can be no others than the quotients of areas.
fn reaches(table: &Table, a: u32, b: u32, c: u32, p: u32) -> bool
    requires a { IsOf table.now a }
    requires b { IsOf table.now b }
    requires c { IsOf table.now c }
    requires p { IsOf table.now p }
    requires left { pos 0 <ℤ area (axes table.now) (place table.now a) (place table.now b) (place table.now c) }
    ensures when_true { result ≡ true → IsReached table.now a b c p }
    ensures when_false { result ≡ false → ¬ (IsReached table.now a b c p) }
{
    let whole = table.area(a, b, c);
    let second = table.area(c, a, p);
    let third = table.area(a, b, p);
    let m = Multiples {
        s: second / whole,
        t: third / whole,
    };
    is_reached(
        table.place(a),
        table.place(b),
        table.place(c),
        &m,
        table.place(p),
    )
}

/// Whether the triple turns to the left and reaches all points of the face.
fn is_unit(table: &Table, a: u32, b: u32, c: u32) -> bool
    requires a { IsOf table.now a }
    requires b { IsOf table.now b }
    requires c { IsOf table.now c }
    ensures when_true { result ≡ true → IsUnit table.now a b c }
    ensures when_false { result ≡ false → ¬ (IsUnit table.now a b c) }
{
    if table.area(a, b, c) <= 0 {
        return false;
    }
    for p in table.points() {
        if !reaches(table, a, b, c, *p) {
            return false;
        }
    }
    true
}

/// A unit triple with these two points.
fn unit_with_two(table: &Table, a: u32, b: u32) -> Option<u32>
    requires a { IsOf table.now a }
    requires b { IsOf table.now b }
    ensures { MatchOption result ((c : ℕ) → ¬ (IsUnit table.now a b c)) (λ c. IsUnit table.now a b c) }
{
    for c in table.points() {
        if is_unit(table, a, b, *c) {
            return Some(*c);
        }
    }
    None
}

/// A unit triple with this point.
fn unit_with(table: &Table, a: u32) -> Option<(u32, u32)>
    requires { IsOf table.now a }
    ensures { MatchOption result ((b c : ℕ) → ¬ (IsUnit table.now a b c)) (λ t. IsUnit table.now a t.0 t.1) }
{
    for b in table.points() {
        if let Some(c) = unit_with_two(table, a, *b) {
            return Some((*b, c));
        }
    }
    None
}

/// A unit triple.
fn unit_triple(table: &Table) -> Option<(u32, u32, u32)>
    ensures { MatchOption result ((a b c : ℕ) → ¬ (IsUnit table.now a b c)) (λ t. IsUnit table.now t.0 t.1 t.2) }
{
    for a in table.points() {
        if let Some((b, c)) = unit_with(table, *a) {
            return Some((*a, b, c));
        }
    }
    None
}

/// The area of all unit triples; 0 where there is none.
pub fn unit_area(table: &Table) -> i64
    ensures { IsUnitArea table.now result }
{
    match unit_triple(table) {
        Some((a, b, c)) => table.area(a, b, c),
        None => 0,
    }
}
