//! The separate checker asked of lists, clashes and chain files of a small plan.
#![tactic(auto)]

#[cfg(test)]
mod chains;
#[cfg(test)]
mod checking;
