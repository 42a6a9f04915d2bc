//! The agenda, waking, sources, blame and settling of nets of small plans.
#![tactic(auto)]

#[cfg(test)]
mod net;
#[cfg(test)]
mod net_agenda;
#[cfg(test)]
mod net_blame;
#[cfg(test)]
mod net_sources;
#[cfg(test)]
mod net_waking;
#[cfg(test)]
mod net_work;
