//! The rows of all heights over the variables that are not basic, with one denominator.
ghost use Rattle.std.specs.Prelude.{◌≡◌, ◌≢◌, ℕ, ◌+◌, ◌-◌, ◌*◌, ◌^◌, ◌<◌, ◌≤◌, pos, ◌-ℤ◌, ◌*ℤ◌, ◌+ℤ◌, ◌<ℤ◌, unsigned_abs, length, IfSome};
ghost use Rattle.std.specs.Bool.{OnTrue};
ghost use Rattle.ntfe_nums.specs.Vectors.{sign as sign_of};
ghost use Rattle.strict_solver.specs.Rows.{number, AreNarrow};
ghost use Rattle.strict_solver.specs.Grids.{row_at};
ghost use Rattle.strict_solver.specs.Mixing.{IsMixed, AreNarrowRows};
ghost use Rattle.strict_solver.specs.Starts.{IsFoldOver};
ghost use Rattle.strict_solver.specs.Standing.{IsPutIn, IsFoldOfRows};

use crate::divisor::{Divisor, NUMBER_LIMIT};
use crate::place::Place;
use ntfe_model::Fold;

/// A table of the stated solver, told by rows of the heights alone: a height that is basic has its row of the table,
/// multiplied so that all rows have one denominator, and a height that is not has the row that says that it is itself. A
/// slack's row is its fold of these rows, less the denominator, and need not be kept.
#[derive(Drop)]
pub struct Basis {
    /// The number of heights.
    pub columns: usize,
    /// What all rows are divided by.
    pub denominator: i64,
    /// The rows of the heights, one after the other.
    pub cells: Vec<i64>,
    /// Where each variable stands: first the heights, then the slacks.
    pub places: Vec<Place>,
    /// The row of one slack.
    pub line: Vec<i64>,
}

/// The product of two numbers below 2^30 in size.
#[inline]
fn product(a: i64, b: i64) -> i64
    requires first { unsigned_abs a < 2 ^ 30 }
    requires second { unsigned_abs b < 2 ^ 30 }
    ensures value { result ≡ a *ℤ b }
    ensures size { unsigned_abs result < 2 ^ 60 }
{
    a * b
}

/// The difference of two products.
#[inline]
fn difference(a: i64, b: i64, c: i64, d: i64) -> i64
    requires first { unsigned_abs a < 2 ^ 30 }
    requires second { unsigned_abs b < 2 ^ 30 }
    requires third { unsigned_abs c < 2 ^ 30 }
    requires fourth { unsigned_abs d < 2 ^ 30 }
    ensures value { result ≡ a *ℤ b -ℤ c *ℤ d }
    ensures size { unsigned_abs result < 2 ^ 62 }
{
    product(a, b) - product(c, d)
}

/// The number, or less than 0 by as much where the sign is negative.
#[inline]
pub fn signed(sign: i64, number: i64) -> i64
    requires some { sign ≢ pos 0 }
    requires number { unsigned_abs number < 2 ^ 30 }
    ensures value { result ≡ sign_of sign *ℤ number }
    ensures size { unsigned_abs result < 2 ^ 30 }
{
    if sign < 0 { -number } else { number }
}

/// The number times one less the other times another, divided without a remainder: nothing where there is one, or where it
/// reaches 2^30. Most numbers stay, since nothing is taken from them, and they are 0 or multiplied by the divisor.
#[inline]
fn mixed(number: i64, other: i64, times: i64, factor: i64, divisor: &Divisor) -> Option<i64>
    requires number { unsigned_abs number < 2 ^ 30 }
    requires other { unsigned_abs other < 2 ^ 30 }
    requires times { unsigned_abs times < 2 ^ 30 }
    requires factor { unsigned_abs factor < 2 ^ 30 }
    requires divisor { unsigned_abs divisor.now.number < 2 ^ 30 }
    ensures value { IfSome result (λ z. divisor.now.number *ℤ z ≡ times *ℤ number -ℤ factor *ℤ other) }
    ensures small { IfSome result (λ z. unsigned_abs z < 2 ^ 30) }
{
    if product(factor, other) == 0 && (number == 0 || times == divisor.number) {
        return Some(number);
    }
    divisor.quotient(difference(times, number, factor, other))
}

/// The row times a number less the line times another, divided without a remainder. The answer is false where there is one, or
/// where a number reaches 2^30.
fn mix(row: &mut [i64], line: &[i64], times: i64, factor: i64, divisor: &Divisor) -> bool
    requires row { AreNarrow 30 row.old }
    requires line { AreNarrow 30 line.now }
    requires count { length line.now ≡ length row.old }
    requires times { unsigned_abs times < 2 ^ 30 }
    requires factor { unsigned_abs factor < 2 ^ 30 }
    requires divisor { unsigned_abs divisor.now.number < 2 ^ 30 }
    ensures count { length row.new ≡ length row.old }
    ensures answer { OnTrue result (IsMixed divisor.now.number times factor row.old line.now row.new) }
{
    for k in 0..row.len() {
        let Some(number) = mixed(row[k], line[k], times, factor, divisor) else {
            return false;
        };
        row[k] = number;
    }
    true
}

/// Solves the line for the variable of a column, and puts it in place of that variable in a row. The answer is false where a
/// number is not whole or reaches 2^30.
fn put_in_row(row: &mut [i64], line: &[i64], column: usize, divisor: &Divisor) -> bool
    requires row { AreNarrow 30 row.old }
    requires line { AreNarrow 30 line.now }
    requires count { length line.now ≡ length row.old }
    requires after { 2 ≤ column }
    requires within { column < length row.old }
    requires some { number line.now column ≢ pos 0 }
    requires first { number row.old 0 ≡ divisor.now.number }
    requires divisor { unsigned_abs divisor.now.number < 2 ^ 30 }
    requires positive { pos 0 <ℤ divisor.now.number }
    ensures count { length row.new ≡ length row.old }
    ensures answer { OnTrue result (IsPutIn line.now column divisor.now.number row.old row.new) }
{
    let times = signed(line[column], line[column]);
    let factor = signed(line[column], row[column]);
    if factor == 0 && times == divisor.number {
        return true;
    }
    if !mix(row, line, times, factor, divisor) {
        return false;
    }
    row[0] = times;
    row[column] = factor;
    true
}

/// Puts the line, solved for the variable of a column, into the rows.
pub fn put_in_rows(
    cells: &mut [i64],
    line: &[i64],
    column: usize,
    divisor: &Divisor,
    rows: usize,
) -> bool
    requires room { length cells.old ≡ rows * length line.now }
    requires few { rows ≤ 400 }
    requires short { length line.now ≤ 402 }
    requires cells { AreNarrowRows rows (length line.now) cells.old }
    requires line { AreNarrow 30 line.now }
    requires after { 2 ≤ column }
    requires within { column < length line.now }
    requires some { number line.now column ≢ pos 0 }
    requires first { (k : ℕ) → k < rows → number (row_at (length line.now) cells.old k) 0 ≡ divisor.now.number }
    requires divisor { unsigned_abs divisor.now.number < 2 ^ 30 }
    requires positive { pos 0 <ℤ divisor.now.number }
    ensures count { length cells.new ≡ length cells.old }
    ensures answer { OnTrue result ((k : ℕ) → k < rows → IsPutIn line.now column divisor.now.number (row_at (length line.now) cells.old k) (row_at (length line.now) cells.new k)) }
{
    let stride = line.len();
    for k in 0..rows {
        let row = &mut cells[k * stride..k * stride + stride];
        if !put_in_row(row, line, column, divisor) {
            return false;
        }
    }
    true
}

/// The fold of four numbers.
#[inline]
pub fn fold_of(fold: &Fold, a: i64, b: i64, c: i64, d: i64) -> i64
    requires alpha { unsigned_abs fold.now.alpha ≤ 4094 }
    requires beta { unsigned_abs fold.now.beta ≤ 4094 }
    requires a { unsigned_abs a < 2 ^ 30 }
    requires b { unsigned_abs b < 2 ^ 30 }
    requires c { unsigned_abs c < 2 ^ 30 }
    requires d { unsigned_abs d < 2 ^ 30 }
    ensures value { result ≡ c +ℤ d -ℤ fold.now.alpha *ℤ a -ℤ fold.now.beta *ℤ b }
    ensures size { unsigned_abs result < 2 ^ 62 }
{
    c + d - product(fold.alpha, a) - product(fold.beta, b)
}

/// The row of a height.
fn row_of(cells: &[i64], stride: usize, point: u32) -> &[i64]
    requires point { 1 ≤ point }
    requires room { (point - 1) * stride + stride ≤ length cells.now }
    requires short { stride ≤ 402 }
    ensures { result.now ≡ row_at stride cells.now (point - 1) }
{
    let start = (point as usize - 1) * stride;
    &cells[start..start + stride]
}

/// The fold of the heights' rows. The answer is false where a number reaches 2^30.
pub fn write_fold_of_rows(cells: &[i64], fold: &Fold, rows: usize, line: &mut [i64]) -> bool
    requires room { length cells.now ≡ rows * length line.old }
    requires few { rows ≤ 400 }
    requires short { length line.old ≤ 402 }
    requires cells { AreNarrowRows rows (length line.old) cells.now }
    requires fold { IsFoldOver rows fold.now }
    ensures count { length line.new ≡ length line.old }
    ensures answer { OnTrue result (IsFoldOfRows (length line.old) cells.now fold.now line.new) }
{
    let stride = line.len();
    let a = row_of(cells, stride, fold.a);
    let b = row_of(cells, stride, fold.b);
    let c = row_of(cells, stride, fold.c);
    let d = row_of(cells, stride, fold.d);
    for k in 0..stride {
        let number = fold_of(fold, a[k], b[k], c[k], d[k]);
        if number.unsigned_abs() >= NUMBER_LIMIT {
            return false;
        }
        line[k] = number;
    }
    true
}
