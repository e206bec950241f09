//! Where a variable stands in a grid.

/// The row of a basic variable, or the index of another one's column within each row.
#[derive(Clone, Copy, Drop)]
pub enum Place {
    Row(usize),
    Column(usize),
}
