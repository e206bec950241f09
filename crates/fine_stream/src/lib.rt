//! The fine triangulations of a two-face, each once, in order of words.
#![tactic(auto)]

mod face_tables;
mod find;
mod fronts;
mod lent_stream;
mod own_book;
mod path;
mod position;
mod row;
mod search;
mod sides;
mod stream;
mod tables;
mod walk;

pub use face_tables::FaceTables;
pub use lent_stream::LentStream;
pub use own_book::OwnBook;
pub use position::Position;
pub use stream::Stream;
