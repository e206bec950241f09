//! Star triangulations by heights, as sets of four points that are joined to the origin.
#![tactic(auto)]

mod above;
mod beyond_ridge;
mod building;
mod candidate;
mod combining;
mod crossing;
mod face_chart;
mod facets;
mod first_member;
mod four;
mod frame;
mod laws;
mod left_triples;
mod origin;
mod restriction;
mod ridge;
mod search;
mod span;
mod star;
mod ties;
mod walk;

pub use beyond_ridge::beyond;
pub use building::build;
pub use laws::{
    extendable_is_induced, facets_meet, induced_is_extendable, restriction_is_fine, star_closes,
};
pub use origin::{origin_height, origin_lies_low};
pub use restriction::restrict;
pub use star::Star;
