//! Messages of HTTP as a connection gives them: cut behind each byte, in pieces, at the limits, over links that fail.
#![tactic(auto)]

#[cfg(test)]
mod coming;
#[cfg(test)]
mod cuts;
#[cfg(test)]
mod faults;
#[cfg(test)]
mod limits;
