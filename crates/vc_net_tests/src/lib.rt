//! Places, values standing, the log, readers and bounds of nets of small plans.
#![tactic(auto)]

#[cfg(test)]
mod net_bounds;
#[cfg(test)]
mod net_laws;
#[cfg(test)]
mod net_log;
#[cfg(test)]
mod net_places;
#[cfg(test)]
mod net_readers;
#[cfg(test)]
mod net_standing;
