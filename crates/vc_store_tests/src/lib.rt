//! What is saved is read again, over a lamp of two colours.
#![tactic(auto)]

#[cfg(test)]
mod saved;
