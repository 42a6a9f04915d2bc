//! The command `serve`: links that come to a door are talked to by one desk.
#![tactic(auto)]

pub mod counting;
pub mod linking;
pub mod serving;
pub mod stop;
pub mod telling;

pub use counting::links_asked;
pub use serving::serve;
