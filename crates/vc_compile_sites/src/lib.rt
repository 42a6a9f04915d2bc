//! Terms and conditions of a model's dependencies, as its plan has them where they stand.
#![tactic(auto)]

pub mod conditions;
pub mod entries;
pub mod places;
pub mod site;
pub mod terms;

pub use conditions::{condition_at, condition_if, pieces_of};
pub use entries::{Entry, entries_of};
pub use places::{
    Asked, dependency, is_configurable, place_at, preconditions_among, selections_among,
    setting_at, site_of, statements_in,
};
pub use site::Site;
pub use terms::{literal_of, lone_of, term_at};
