//! Where a stream stands.
use ntfe_model::List;

/// Where a stream stands: before the first item, after the item with a word, or at the end.
#[derive(Drop)]
pub enum Position {
    Start,
    After(List<u32>),
    End,
}
