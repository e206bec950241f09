//! Rows of coordinates, and whether they are those of a pair's lists.
ghost use Rattle.std.specs.Prelude.{◌≡◌, ◌↔◌, All, IfOk, IsTrue, map};
ghost use Rattle.ntfe_nums.specs.Vectors.{vector};
ghost use Rattle.ntfe_model.specs.Pairs.{IsSmall, IsBoundedList};

use crate::vector::Vec4;
use std::alloc::{AllocError, Global};

/// Why two lists of rows are not those of a pair.
#[derive(Clone, Copy, Drop, Debug, PartialEq, Eq)]
pub enum RowsFault {
    /// A list has fewer than 5 or more than 64 rows, or a coordinate lies outside -1023 to 1023.
    Unbounded,
    /// There was no memory.
    Memory,
}

/// Whether each coordinate lies from -1023 to 1023.
fn is_small(row: &[i64; 4]) -> bool
    ensures { IsTrue result ↔ IsSmall (vector row.now) }
{
    let [a, b, c, d] = *row;
    if a < -1023 || a > 1023 || b < -1023 || b > 1023 {
        return false;
    }
    if c < -1023 || c > 1023 || d < -1023 || d > 1023 {
        return false;
    }
    true
}

/// Whether each row has coordinates from -1023 to 1023.
fn are_small(rows: &[[i64; 4]]) -> bool
    ensures { IsTrue result ↔ All IsSmall (map vector rows.now) }
{
    for row in rows {
        if !is_small(row) {
            return false;
        }
    }
    true
}

/// Whether the rows are those of a list of a pair.
pub fn are_bounded(rows: &[[i64; 4]]) -> bool
    ensures { IsTrue result ↔ IsBoundedList (map vector rows.now) }
{
    5 <= rows.len() && rows.len() <= 64 && are_small(rows)
}

/// The vectors with these coordinates.
pub fn vectors_of(alloc: Global, rows: &[[i64; 4]]) -> Result<Vec<Vec4>, AllocError>
    ensures { IfOk result (λ v. v.items ≡ map vector rows.now) }
{
    rows.iter().map(|row| Vec4::new(*row)).collect(alloc)
}
