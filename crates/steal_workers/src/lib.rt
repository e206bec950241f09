//! The listing of the classes: what writes them in order, and the loop that finds them on one thread.
#![tactic(auto)]

mod alone;
mod blocks;
mod crew;
mod found_keys;
mod laws;
mod listing;
mod look;
mod pool;
mod probing;
mod row;
mod served;
mod serving;
mod shared_board;
mod sizes;
mod stars;
mod tally;
mod together;
mod worker;
mod working;
mod writer;

pub use alone::list_alone;
pub use laws::extendable_has_block;
pub use listing::Listing;
pub use pool::Pool;
pub use probing::Prober;
pub use served::Served;
pub use tally::{Stake, Tally};
pub use together::list_together;
pub use writer::Writer;
