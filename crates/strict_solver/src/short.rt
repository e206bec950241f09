//! Rows in words of 64 bits: new numbers that fit are computed in the place of the old ones.
ghost use Rattle.std.specs.Prelude.{◌≡◌, ℕ, ◌+◌, ◌*◌, ◌^◌, ◌<◌, ◌≤◌, pos, ◌+ℤ◌, ◌*ℤ◌, ◌<ℤ◌, length, unsigned_abs, MatchBool};
ghost use Rattle.std.specs.Bool.{OnTrue};
ghost use Rattle.std.specs.Int.{◌∣◌, IsGcd};
ghost use Rattle.strict_solver.specs.Rows.{number, AreNarrow, IsWideRow, IsCommonDivisor, IsLowered};
ghost use Rattle.strict_solver.specs.ShortRows.{IsLargest, AreShares, IsShort};

/// What a row and the pivot row are multiplied by.
#[derive(Clone, Copy, Drop)]
pub struct Shares {
    pub row: i64,
    pub pivot: i64,
}

/// The greatest common divisor; that of 0 and 0 is 0.
fn divisor(a: u64, b: u64) -> u64
    ensures { IsGcd a b result }
{
    let mut x = a;
    let mut y = b;
    while y != 0 {
        (x, y) = (y, x % y);
    }
    x
}

/// The denominator and the factor, divided by their greatest common divisor.
pub fn share_out(denominator: i64, factor: i64) -> Shares
    requires positive { pos 0 <ℤ denominator }
    requires denominator { unsigned_abs denominator < 2 ^ 62 }
    requires factor { unsigned_abs factor < 2 ^ 62 }
    ensures { AreShares denominator factor result }
{
    if denominator == 1 {
        return Shares {
            row: 1,
            pivot: factor,
        };
    }
    let shared = divisor(factor.unsigned_abs(), denominator.unsigned_abs()) as i64;
    Shares {
        row: denominator / shared,
        pivot: factor / shared,
    }
}

/// The largest size of the numbers.
pub fn largest(numbers: &[i64]) -> u64
    requires { AreNarrow 62 numbers.now }
    ensures { IsLargest numbers.now result }
{
    let mut largest = 0;
    for number in numbers {
        largest = largest.max(number.unsigned_abs());
    }
    largest
}

/// A size that no number of the row times its share exceeds.
fn row_size(row: &[i64], share: i64) -> u128
    requires narrow { AreNarrow 62 row.now }
    requires share { unsigned_abs share < 2 ^ 62 }
    ensures each { (k : ℕ) → unsigned_abs share * unsigned_abs (number row.now k) ≤ result }
    ensures size { result < 2 ^ 124 }
{
    // Most shares are 1, and the numbers are below 2^62 as they are.
    if share == 1 {
        return 1 << 62;
    }
    u128::from(share.unsigned_abs()) * u128::from(largest(row))
}

/// Whether the row times its share and the pivot row times its share add up to numbers below 2^63 in size. The largest size
/// in the pivot row is known.
pub fn is_short(row: &[i64], shares: &Shares, pivot: &[i64], size: u64) -> bool
    requires row { AreNarrow 62 row.now }
    requires pivot { IsLargest pivot.now size }
    requires first { unsigned_abs shares.now.row < 2 ^ 62 }
    requires second { unsigned_abs shares.now.pivot < 2 ^ 62 }
    ensures { OnTrue result (IsShort shares.now row.now pivot.now) }
{
    let of_row = row_size(row, shares.row);
    let of_pivot = u128::from(shares.pivot.unsigned_abs()) * u128::from(size);
    of_row + of_pivot < 1 << 63
}

/// The row times its share plus the pivot row times its share.
pub fn mix(row: &mut [i64], shares: &Shares, pivot: &[i64])
    requires wide { length pivot.now ≡ length row.old }
    requires row { AreNarrow 62 row.old }
    requires pivot { AreNarrow 62 pivot.now }
    requires first { unsigned_abs shares.now.row < 2 ^ 62 }
    requires second { unsigned_abs shares.now.pivot < 2 ^ 62 }
    requires short { IsShort shares.now row.old pivot.now }
    ensures count { length row.new ≡ length row.old }
    ensures each { (k : ℕ) → number row.new k ≡ number row.old k *ℤ shares.now.row +ℤ shares.now.pivot *ℤ number pivot.now k }
    ensures sizes { (k : ℕ) → unsigned_abs (number row.new k) < 2 ^ 63 }
{
    for k in 0..row.len() {
        row[k] = row[k] * shares.row + shares.pivot * pivot[k];
    }
}

/// The greatest common divisor of all numbers.
fn common_divisor(numbers: &[i64]) -> u64
    ensures { IsCommonDivisor numbers.now result }
{
    let mut common = 0;
    for number in numbers {
        // With the number first the first remainder is small.
        common = divisor(number.unsigned_abs(), common);
        if common == 1 {
            return 1;
        }
    }
    common
}

/// The numbers divided by one that divides all.
fn divide(numbers: &mut [i64], divisor: i64)
    requires positive { pos 0 <ℤ divisor }
    requires size { unsigned_abs divisor < 2 ^ 63 }
    requires sizes { (k : ℕ) → unsigned_abs (number numbers.old k) < 2 ^ 63 }
    requires divides { (k : ℕ) → unsigned_abs divisor ∣ unsigned_abs (number numbers.old k) }
    ensures count { length numbers.new ≡ length numbers.old }
    ensures each { (k : ℕ) → divisor *ℤ number numbers.new k ≡ number numbers.old k }
{
    for number in numbers.iter_mut() {
        *number = *number / divisor;
    }
}

/// Brings the row to its lowest form.
pub fn lower(row: &mut [i64])
    requires some { 0 < unsigned_abs (number row.old 0) }
    requires sizes { (k : ℕ) → unsigned_abs (number row.old k) < 2 ^ 63 }
    ensures { IsLowered row.old row.new }
{
    let common = common_divisor(row);
    if common != 1 {
        divide(row, common as i64);
    }
}

/// Whether each number is below 2^width in size.
pub fn are_narrow(numbers: &[i64], width: u8) -> bool
    requires { width ≤ 62 }
    ensures { MatchBool result (AreNarrow width numbers.now) (IsWideRow width numbers.now) }
{
    for number in numbers {
        if number.unsigned_abs() >> width != 0 {
            return false;
        }
    }
    true
}

/// Copies the numbers into longer words.
pub fn widen(numbers: &[i64], out: &mut [i128])
    requires { length out.old ≡ length numbers.now }
    ensures { out.new ≡ numbers.now }
{
    for k in 0..numbers.len() {
        out[k] = i128::from(numbers[k]);
    }
}
