//! What table rules say of a plan and a view, called on small plans.
#![tactic(auto)]

#[cfg(test)]
mod rule_table;
