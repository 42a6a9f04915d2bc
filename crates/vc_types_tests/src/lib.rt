//! The typing of dependencies, called on small models.
#![tactic(auto)]

#[cfg(test)]
mod types;
#[cfg(test)]
mod types_dependency;
#[cfg(test)]
mod types_faults;
#[cfg(test)]
mod types_meanings;
#[cfg(test)]
mod types_names;
#[cfg(test)]
mod types_occurrences;
