//! What is found at a key: the end of the items, a certificate, a class, or that the key is to be gone into.
#![tactic(auto)]

mod assembling;
mod fetching;
mod finding;
mod fold_cache;
mod following;
mod head;
mod heights;
mod probing;
mod solving;
mod stems;

pub use finding::Finding;
pub use fold_cache::FoldCache;
pub use probing::{probe, probe_cached, probe_following};
pub use stems::Stems;
