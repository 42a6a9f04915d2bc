//! Requests and replies, the desk, and the program over files in memory.
#![tactic(auto)]

#[cfg(test)]
mod app;
#[cfg(test)]
mod app_check;
#[cfg(test)]
mod app_models;
#[cfg(test)]
mod app_serve;
#[cfg(test)]
mod desk;
#[cfg(test)]
mod desk_names;
#[cfg(test)]
mod desk_shown;
#[cfg(test)]
mod wire_replies;
#[cfg(test)]
mod wire_requests;
