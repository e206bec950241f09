//! Laws of stars: functions that do nothing, whose contracts are theorems.

mod closing;
mod extendable;
mod facing;
mod lexicographic;
mod restricted;

pub use closing::star_closes;
pub use extendable::extendable_is_induced;
pub use facing::facets_meet;
pub use lexicographic::induced_is_extendable;
pub use restricted::restriction_is_fine;
