//! Numbers, words, counts of steps and cut ranges, called with ample memory.
#![tactic(auto)]

#[cfg(test)]
mod value_cuts;
#[cfg(test)]
mod value_numbers;
#[cfg(test)]
mod value_steps;
#[cfg(test)]
mod value_wide;
#[cfg(test)]
mod value_words;
