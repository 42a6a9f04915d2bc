//! Procedures, stages and sessions over small plans.
#![tactic(auto)]

#[cfg(test)]
mod proc;
#[cfg(test)]
mod proc_look_ups;
#[cfg(test)]
mod session;
#[cfg(test)]
mod session_evaluation;
