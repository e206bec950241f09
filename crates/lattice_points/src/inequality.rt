//! Sums of the dual vertices' inequalities in which coordinates cancel.
ghost use Rattle.std.specs.Prelude.{◌≡◌, true, ℤ, pos, ◌+ℤ◌, ◌*ℤ◌, ◌≤ℤ◌, ◌≤◌, ◌^◌, [], ◌∷◌, All, Contains, IfOk, IfSome, OnOk, List as Items, unsigned_abs};
ghost use Rattle.ntfe_nums.specs.Sizes.{AreWithin};
ghost use Rattle.ntfe_nums.specs.Vectors.{Vector};
ghost use Rattle.ntfe_model.specs.Pairs.{IsSmall, IsBoundedList};
ghost use Rattle.lattice_points.specs.Inequalities.{IsShort, IsGiven, Lacks, IsSum};
ghost use Rattle.lattice_points.specs.declared.inequality.Cancelled.{Cancelled as AsCancelled};

use ntfe_model::{Vec4, tight_bits};
use ntfe_nums::gcd;
use std::alloc::{AllocError, Global};

/// The most that a number of an inequality may be, with either sign.
const MOST: i64 = 2_097_152;

/// The inequality `c1 x1 + c2 x2 + c3 x3 + c4 x4 + rest >= -1`, and the vertices at which it is as tight as it can be, a bit
/// for each. It holds whatever the bits say: they only tell which sums are worth their time.
#[derive(Clone, Copy, Drop)]
pub struct Inequality {
    pub c1: i64,
    pub c2: i64,
    pub c3: i64,
    pub c4: i64,
    pub rest: i64,
    pub vertices: u64,
}

/// The coordinate that cancels: the fourth, or the third once the fourth has.
#[derive(Clone, Copy, Drop)]
pub enum Cancelled {
    Third,
    Fourth,
}

impl Cancelled {
    /// How many vertices two inequalities share whose sum bounds the polytope's image in the coordinates before this one:
    /// an image in three has polygons for facets, one in two has edges.
    fn least_shared(self) -> u32 {
        match self {
            Cancelled::Third => 2,
            Cancelled::Fourth => 3,
        }
    }
}

/// q times the one number and p times the other.
fn combined(q: i64, a: i64, p: i64, b: i64) -> i64
    requires { AreWithin (2 ^ 21) (q ∷ a ∷ p ∷ b ∷ []) }
    ensures size { unsigned_abs result ≤ 2 ^ 44 }
    ensures value { result ≡ q *ℤ a +ℤ p *ℤ b }
{
    q * a + p * b
}

/// Whether the number is 0.
fn is_zero(x: i64) -> bool
    ensures { result ≡ true → x ≡ pos 0 }
{
    x == 0
}

/// Whether the number is from -2,097,152 to 2,097,152.
fn is_short(x: i64) -> bool
    ensures { result ≡ true → unsigned_abs x ≤ 2 ^ 21 }
{
    -MOST <= x && x <= MOST
}

/// Whether the number is from 1 to 2,097,152.
fn is_weight(x: i64) -> bool
    ensures { result ≡ true → (pos 1 ≤ℤ x) × (unsigned_abs x ≤ 2 ^ 21) }
{
    1 <= x && x <= MOST
}

impl Inequality {
    /// The inequality of a dual vertex that is tight on these vertices.
    fn of(m: &Vec4, vertices: u64) -> Inequality
        requires { IsSmall m.now }
        ensures { (ms : Items Vector) → Contains ms m.now → IsGiven ms result }
    {
        let c = m.coordinates();
        Inequality {
            c1: c[0],
            c2: c[1],
            c3: c[2],
            c4: c[3],
            rest: 0,
            vertices,
        }
    }

    /// The coefficient of the coordinate.
    fn coefficient(&self, cancelled: Cancelled) -> i64 {
        match cancelled {
            Cancelled::Third => self.c3,
            Cancelled::Fourth => self.c4,
        }
    }

    /// Whether the coordinate has cancelled, and those behind it.
    fn lacks(&self, cancelled: Cancelled) -> bool
        ensures { result ≡ true → Lacks cancelled self.now }
    {
        match cancelled {
            Cancelled::Third => is_zero(self.c3) && is_zero(self.c4),
            Cancelled::Fourth => is_zero(self.c4),
        }
    }

    /// Whether all numbers are short.
    fn is_short(&self) -> bool
        ensures { result ≡ true → IsShort self.now }
    {
        is_short(self.c1)
            && is_short(self.c2)
            && is_short(self.c3)
            && is_short(self.c4)
            && is_short(self.rest)
    }

    /// What the first two coordinates and the rest give.
    pub fn level(&self, x1: i64, x2: i64) -> i64
        requires short { IsShort self.now }
        requires size { AreWithin 1023 (x1 ∷ x2 ∷ []) }
        ensures value { result ≡ self.now.c1 *ℤ x1 +ℤ self.now.c2 *ℤ x2 +ℤ self.now.rest }
        ensures size { AreWithin (2 ^ 32) (result ∷ []) }
    {
        self.c1 * x1 + self.c2 * x2 + self.rest
    }

    /// What the first and the third coordinate and the rest give.
    pub fn row_level(&self, x1: i64, x3: i64) -> i64
        requires short { IsShort self.now }
        requires size { AreWithin 1023 (x1 ∷ x3 ∷ []) }
        ensures value { result ≡ self.now.c1 *ℤ x1 +ℤ self.now.c3 *ℤ x3 +ℤ self.now.rest }
        ensures size { AreWithin (2 ^ 32) (result ∷ []) }
    {
        self.c1 * x1 + self.c3 * x3 + self.rest
    }
}

/// q times the one inequality and p times the other, where the weights are positive and the numbers stay short.
fn sum_of(q: i64, m: &Inequality, p: i64, n: &Inequality) -> Option<Inequality>
    requires first { IsShort m.now }
    requires second { IsShort n.now }
    ensures { IfSome result (λ s. (ms : Items Vector) → IsGiven ms m.now → IsGiven ms n.now → IsGiven ms s) }
{
    if !is_weight(q) || !is_weight(p) {
        return None;
    }
    let sum = Inequality {
        c1: combined(q, m.c1, p, n.c1),
        c2: combined(q, m.c2, p, n.c2),
        c3: combined(q, m.c3, p, n.c3),
        c4: combined(q, m.c4, p, n.c4),
        rest: combined(q, m.rest, p, n.rest) + (q + p - 1),
        vertices: m.vertices & n.vertices,
    };
    if !sum.is_short() {
        return None;
    }
    Some(sum)
}

/// The size of a number, divided by another, or a number over the most where it is greater.
fn weight(x: i64, common: u128) -> i64 {
    let size = u128::from(x.unsigned_abs());
    size.checked_div(common).unwrap_or(0).min(2 * MOST as u128) as i64
}

/// The sum of two inequalities with the least weights, if the coordinate cancels in it and they share enough vertices.
fn sum_without(cancelled: Cancelled, m: &Inequality, n: &Inequality) -> Option<Inequality>
    requires first { IsShort m.now }
    requires second { IsShort n.now }
    ensures { IfSome result (λ s. (ms : Items Vector) → IsGiven ms m.now → IsGiven ms n.now → IsSum ms cancelled s) }
{
    let up = m.coefficient(cancelled);
    let down = n.coefficient(cancelled);
    if up < 1 || down > -1 {
        return None;
    }
    if (m.vertices & n.vertices).count_ones() < cancelled.least_shared() {
        return None;
    }
    let common = gcd(
        u128::from(up.unsigned_abs()),
        u128::from(down.unsigned_abs()),
    );
    let sum = sum_of(weight(down, common), m, weight(up, common), n)?;
    if !sum.lacks(cancelled) {
        return None;
    }
    Some(sum)
}

/// Adds an inequality in which the coordinate has cancelled, while there are not enough.
fn add(sum: Inequality, most: usize, sums: &mut Vec<Inequality>) -> Result<(), AllocError>
    ensures { OnOk result ((ms : Items Vector) (k : AsCancelled) → IsSum ms k sum → All (IsSum ms k) sums.old.items → All (IsSum ms k) sums.new.items) }
{
    if sums.len() < most {
        sums.push(sum)?;
    }
    Ok(())
}

/// Adds the sum of two inequalities, if the coordinate cancels in it and they share enough vertices, while there are not
/// enough sums.
fn add_sum(
    cancelled: Cancelled,
    m: &Inequality,
    n: &Inequality,
    most: usize,
    sums: &mut Vec<Inequality>,
) -> Result<(), AllocError>
    requires first { IsShort m.now }
    requires second { IsShort n.now }
    ensures { OnOk result ((ms : Items Vector) → IsGiven ms m.now → IsGiven ms n.now → All (IsSum ms cancelled) sums.old.items → All (IsSum ms cancelled) sums.new.items) }
{
    if sums.len() >= most {
        return Ok(());
    }
    match sum_without(cancelled, m, n) {
        None => Ok(()),
        Some(sum) => {
            sums.push(sum)?;
            Ok(())
        }
    }
}

/// Adds the sums of one inequality with the others, while there are not enough.
fn add_sums(
    cancelled: Cancelled,
    given: &[Inequality],
    m: &Inequality,
    most: usize,
    sums: &mut Vec<Inequality>,
) -> Result<(), AllocError>
    requires short { All IsShort given.now }
    requires first { IsShort m.now }
    ensures { OnOk result ((ms : Items Vector) → All (IsGiven ms) given.now → IsGiven ms m.now → All (IsSum ms cancelled) sums.old.items → All (IsSum ms cancelled) sums.new.items) }
{
    for n in given {
        add_sum(cancelled, m, n, most, sums)?;
    }
    Ok(())
}

/// Adds the inequality itself, where the coordinate has cancelled in it, else its sums with the others.
fn add_those_with(
    cancelled: Cancelled,
    given: &[Inequality],
    m: &Inequality,
    most: usize,
    sums: &mut Vec<Inequality>,
) -> Result<(), AllocError>
    requires short { All IsShort given.now }
    requires first { IsShort m.now }
    ensures { OnOk result ((ms : Items Vector) → All (IsGiven ms) given.now → IsGiven ms m.now → All (IsSum ms cancelled) sums.old.items → All (IsSum ms cancelled) sums.new.items) }
{
    if m.lacks(cancelled) {
        add(*m, most, sums)?;
        return Ok(());
    }
    add_sums(cancelled, given, m, most, sums)
}

/// At most so many of the inequalities in which the coordinate has cancelled, and of the sums of two others in which it
/// cancels. Each of them holds by itself, so any may be left out, and those of two that share too few vertices are.
pub fn eliminate(
    alloc: Global,
    cancelled: Cancelled,
    given: &[Inequality],
    most: usize,
) -> Result<Vec<Inequality>, AllocError>
    requires { All IsShort given.now }
    ensures { IfOk result (λ v. (ms : Items Vector) → All (IsGiven ms) given.now → All (IsSum ms cancelled) v.items) }
{
    let mut sums = Vec::new(alloc);
    for m in given {
        add_those_with(cancelled, given, m, most, &mut sums)?;
    }
    Ok(sums)
}

/// The inequalities of the dual vertices.
pub fn inequalities_of(
    alloc: Global,
    vertices: &[Vec4],
    dual: &[Vec4],
) -> Result<Vec<Inequality>, AllocError>
    requires vertices { IsBoundedList vertices.now }
    requires dual { All IsSmall dual.now }
    ensures { IfOk result (λ v. All (IsGiven dual.now) v.items) }
{
    let mut given = Vec::with_capacity(alloc, dual.len())?;
    for m in dual {
        given.push(Inequality::of(m, tight_bits(m, vertices)))?;
    }
    Ok(given)
}
