//! What is shown of an evaluation: status, rows and bill.
#![tactic(auto)]

#[cfg(test)]
mod bill;
#[cfg(test)]
mod fixtures;
#[cfg(test)]
mod show;
#[cfg(test)]
mod show_rows;
