//! Plans, their counts, and what users and sources give, called on small plans.
#![tactic(auto)]

#[cfg(test)]
mod plan;
#[cfg(test)]
mod plan_blame;
#[cfg(test)]
mod plan_lamp;
#[cfg(test)]
mod plan_reasons;
#[cfg(test)]
mod plan_sources;
#[cfg(test)]
mod plan_users;
