//! The text of a run: its head, a block for each class, and its last line.
#![tactic(auto)]

mod block;
mod canonical;
mod earlier;
mod earlier_fault;
mod fields;
mod form;
mod head;
mod lines;
mod number_lines;
mod numbers;
mod reader;
#[cfg(test)]
mod tests;
mod text_sink;

pub use block::{write_class, write_end};
pub use earlier::{Earlier, read_earlier};
pub use earlier_fault::EarlierFault;
pub use form::TextForm;
pub use head::{write_count, write_head, write_pair_lines};
pub use lines::{Line, write_item, write_items};
pub use numbers::{append_number, append_numbers, append_signed, numbers_text};
