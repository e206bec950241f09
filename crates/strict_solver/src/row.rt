//! One row of a grid: its d, its c, and a coefficient for each column.
ghost use Rattle.std.specs.Prelude.{◌≡◌, ◌≢◌, ℕ, ◌^◌, ◌<◌, ◌≤◌, pos, ◌+ℤ◌, ◌*ℤ◌, ◌<ℤ◌, neg_ℤ, map, length, unsigned_abs, nat_le, MatchBool};
ghost use Rattle.std.specs.Int.{◌∣◌};
ghost use Rattle.ntfe_model.specs.Solver.{first_wide, line_numbers};
ghost use Rattle.strict_solver.specs.ShortRows.{IsLargest, AreShares, IsShort};
ghost use Rattle.strict_solver.specs.Rows.{number, AreNarrow, IsWideRow, IsCommonDivisor, IsLowRow, IsSolvedRow, IsCombination, line_in, PlacesWithin};

use crate::place::Place;
use crate::short::{Shares, are_narrow, is_short, lower, mix, share_out, widen};
use ntfe_nums::{gcd, narrow};

/// The row that is put in place of a variable in the others.
#[derive(Drop)]
pub struct PivotRow {
    /// The row's number.
    pub row: usize,
    /// The index of the column that goes.
    pub column: usize,
    /// The d of the row.
    pub denominator: i64,
    /// The row with 0 in place of its d.
    pub numbers: Vec<i64>,
    /// The largest size of its numbers.
    pub largest: u64,
}

/// Changes the sign of every number.
fn negate(row: &mut [i64])
    requires { AreNarrow 62 row.old }
    ensures count { length row.new ≡ length row.old }
    ensures each { (k : ℕ) → number row.new k ≡ neg_ℤ (number row.old k) }
{
    for number in row.iter_mut() {
        *number = -*number;
    }
}

/// The row solved for the variable of a column, where the variable of the row then stands.
pub fn solve_for(row: &mut [i64], column: usize)
    requires narrow { AreNarrow 62 row.old }
    requires after { 2 ≤ column }
    requires within { column < length row.old }
    requires some { number row.old column ≢ pos 0 }
    ensures { IsSolvedRow row.old column row.new }
{
    let factor = row[column];
    let denominator = row[0];
    if factor < 0 {
        row[0] = -factor;
        row[column] = -denominator;
    } else {
        negate(row);
        row[0] = factor;
        row[column] = denominator;
    }
}

/// The sum of two products.
#[inline]
fn mixed(a: i64, b: i64, c: i64, d: i64) -> i128
    requires first { unsigned_abs a < 2 ^ 62 }
    requires second { unsigned_abs b < 2 ^ 62 }
    requires third { unsigned_abs c < 2 ^ 62 }
    requires fourth { unsigned_abs d < 2 ^ 62 }
    ensures value { result ≡ a *ℤ b +ℤ c *ℤ d }
    ensures size { unsigned_abs result < 2 ^ 126 }
{
    i128::from(a) * i128::from(b) + i128::from(c) * i128::from(d)
}

/// Whether a number is wide.
#[inline]
fn is_wide(number: &i128, width: u8) -> bool
    requires { width ≤ 62 }
    ensures { result ≡ nat_le (2 ^ width) (unsigned_abs number.now) }
{
    number.unsigned_abs() >> width != 0
}

/// The row times the denominator plus the pivot row times the factor.
fn combine(row: &[i64], pivot: &PivotRow, factor: i64, out: &mut [i128])
    requires row { AreNarrow 62 row.now }
    requires pivot { AreNarrow 62 pivot.now.numbers.items }
    requires denominator { unsigned_abs pivot.now.denominator < 2 ^ 62 }
    requires factor { unsigned_abs factor < 2 ^ 62 }
    requires wide { length pivot.now.numbers.items ≡ length row.now }
    requires room { length out.old ≡ length row.now }
    ensures count { length out.new ≡ length row.now }
    ensures each { (k : ℕ) → number out.new k ≡ number row.now k *ℤ pivot.now.denominator +ℤ factor *ℤ number pivot.now.numbers.items k }
    ensures size { (k : ℕ) → unsigned_abs (number out.new k) < 2 ^ 126 }
{
    for k in 0..row.len() {
        out[k] = mixed(row[k], pivot.denominator, factor, pivot.numbers[k]);
    }
}

/// The greatest common divisor of all numbers.
fn common_divisor(numbers: &[i128]) -> u128
    ensures { IsCommonDivisor numbers.now result }
{
    let mut divisor = 0;
    for number in numbers {
        divisor = gcd(divisor, number.unsigned_abs());
        if divisor == 1 {
            return 1;
        }
    }
    divisor
}

/// The numbers divided by one that divides all.
fn divide(numbers: &mut [i128], divisor: i128)
    requires positive { pos 0 <ℤ divisor }
    requires size { unsigned_abs divisor < 2 ^ 126 }
    requires sizes { (k : ℕ) → unsigned_abs (number numbers.old k) < 2 ^ 126 }
    requires divides { (k : ℕ) → unsigned_abs divisor ∣ unsigned_abs (number numbers.old k) }
    ensures count { length numbers.new ≡ length numbers.old }
    ensures each { (k : ℕ) → divisor *ℤ number numbers.new k ≡ number numbers.old k }
{
    for number in numbers.iter_mut() {
        *number = *number / divisor;
    }
}

/// Puts the numbers into the row, unless one is wide.
pub fn store(numbers: &[i128], width: u8, row: &mut [i64]) -> bool
    requires low { 1 ≤ width }
    requires high { width ≤ 62 }
    requires count { length row.old ≡ length numbers.now }
    ensures { MatchBool result ((row.new ≡ numbers.now) × AreNarrow width row.new) (IsWideRow width numbers.now) }
{
    for k in 0..numbers.len() {
        let Some(number) = narrow(numbers[k], width) else {
            return false;
        };
        row[k] = number;
    }
    true
}

/// `eliminate` in words of 128 bits, which always suffice.
fn eliminate_long(row: &mut [i64], pivot: &PivotRow, scratch: &mut [i128], width: u8) -> bool
    requires low { 1 ≤ width }
    requires high { width ≤ 62 }
    requires row { IsLowRow 62 row.old }
    requires pivot { AreNarrow 62 pivot.now.numbers.items }
    requires denominator { unsigned_abs pivot.now.denominator < 2 ^ 62 }
    requires positive { pos 0 <ℤ pivot.now.denominator }
    requires first { number pivot.now.numbers.items 0 ≡ pos 0 }
    requires after { 2 ≤ pivot.now.column }
    requires within { pivot.now.column < length row.old }
    requires wide { length pivot.now.numbers.items ≡ length row.old }
    requires room { length scratch.old ≡ length row.old }
    ensures kept { length scratch.new ≡ length row.old }
    ensures answer { MatchBool result
        (IsCombination row.old pivot.now.column pivot.now.numbers.items pivot.now.denominator row.new × AreNarrow width row.new)
        (IsCombination row.old pivot.now.column pivot.now.numbers.items pivot.now.denominator scratch.new × IsWideRow width scratch.new) }
{
    let factor = row[pivot.column];
    row[pivot.column] = 0;
    combine(row, pivot, factor, scratch);
    let divisor = common_divisor(scratch);
    if divisor != 1 {
        divide(scratch, divisor as i128);
    }
    store(scratch, width, row)
}

/// `eliminate` in words of 64 bits, where they suffice.
fn eliminate_short(
    row: &mut [i64],
    pivot: &PivotRow,
    shares: &Shares,
    scratch: &mut [i128],
    width: u8,
) -> bool
    requires low { 1 ≤ width }
    requires high { width ≤ 62 }
    requires row { IsLowRow 62 row.old }
    requires pivot { AreNarrow 62 pivot.now.numbers.items }
    requires shares { AreShares pivot.now.denominator (number row.old pivot.now.column) shares.now }
    requires short { IsShort shares.now row.old pivot.now.numbers.items }
    requires first { number pivot.now.numbers.items 0 ≡ pos 0 }
    requires after { 2 ≤ pivot.now.column }
    requires within { pivot.now.column < length row.old }
    requires wide { length pivot.now.numbers.items ≡ length row.old }
    requires room { length scratch.old ≡ length row.old }
    ensures kept { length scratch.new ≡ length row.old }
    ensures answer { MatchBool result
        (IsCombination row.old pivot.now.column pivot.now.numbers.items pivot.now.denominator row.new × AreNarrow width row.new)
        (IsCombination row.old pivot.now.column pivot.now.numbers.items pivot.now.denominator scratch.new × IsWideRow width scratch.new) }
{
    row[pivot.column] = 0;
    mix(row, shares, &pivot.numbers);
    lower(row);
    if are_narrow(row, width) {
        return true;
    }
    widen(row, scratch);
    false
}

/// Puts the pivot row in place of its variable, and brings the row to its lowest form. Where a number of it is wide,
/// the answer is false and the form stands in `scratch`.
pub fn eliminate(row: &mut [i64], pivot: &PivotRow, scratch: &mut [i128], width: u8) -> bool
    requires low { 1 ≤ width }
    requires high { width ≤ 62 }
    requires row { IsLowRow 62 row.old }
    requires pivot { AreNarrow 62 pivot.now.numbers.items }
    requires largest { IsLargest pivot.now.numbers.items pivot.now.largest }
    requires denominator { unsigned_abs pivot.now.denominator < 2 ^ 62 }
    requires positive { pos 0 <ℤ pivot.now.denominator }
    requires first { number pivot.now.numbers.items 0 ≡ pos 0 }
    requires after { 2 ≤ pivot.now.column }
    requires within { pivot.now.column < length row.old }
    requires wide { length pivot.now.numbers.items ≡ length row.old }
    requires room { length scratch.old ≡ length row.old }
    ensures kept { length scratch.new ≡ length row.old }
    ensures answer { MatchBool result
        (IsCombination row.old pivot.now.column pivot.now.numbers.items pivot.now.denominator row.new × AreNarrow width row.new)
        (IsCombination row.old pivot.now.column pivot.now.numbers.items pivot.now.denominator scratch.new × IsWideRow width scratch.new) }
{
    let shares = share_out(pivot.denominator, row[pivot.column]);
    if is_short(row, &shares, &pivot.numbers, pivot.largest) {
        eliminate_short(row, pivot, &shares, scratch, width)
    } else {
        eliminate_long(row, pivot, scratch, width)
    }
}

/// The first wide number of a row, in the order of the variables.
pub fn first_wide_number(numbers: &[i128], places: &[Place], width: u8) -> Option<i128>
    requires low { 1 ≤ width }
    requires high { width ≤ 62 }
    requires two { 2 ≤ length numbers.now }
    requires within { PlacesWithin (length numbers.now) places.now }
    ensures { result ≡ first_wide width (line_numbers (line_in places.now numbers.now)) }
{
    if is_wide(&numbers[0], width) {
        return Some(numbers[0]);
    }
    if is_wide(&numbers[1], width) {
        return Some(numbers[1]);
    }
    for place in places {
        if let Place::Column(p) = *place {
            if is_wide(&numbers[p], width) {
                return Some(numbers[p]);
            }
        }
    }
    None
}
