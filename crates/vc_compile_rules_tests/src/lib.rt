//! Conditions, rules and whole plans compiled of small models.
#![tactic(auto)]

#[cfg(test)]
mod compile;
#[cfg(test)]
mod compile_constraints;
#[cfg(test)]
mod compile_shown;
#[cfg(test)]
mod compile_sites;
#[cfg(test)]
mod compile_typing;
#[cfg(test)]
mod fixtures;
