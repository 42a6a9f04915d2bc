//! What rules say of a plan and a view, called on small plans.
#![tactic(auto)]

#[cfg(test)]
mod rule;
#[cfg(test)]
mod rule_finding;
#[cfg(test)]
mod rule_grains;
#[cfg(test)]
mod rule_narrowing;
#[cfg(test)]
mod rule_premises;
#[cfg(test)]
mod rule_readings;
#[cfg(test)]
mod rule_sides;
#[cfg(test)]
mod rule_terms;
#[cfg(test)]
mod rule_yield;
