//! What compiling makes of a model, part by part, called on small models.
#![tactic(auto)]

#[cfg(test)]
mod compile_cuts;
#[cfg(test)]
mod compile_numbering;
#[cfg(test)]
mod compile_plan;
#[cfg(test)]
mod compile_slots;
#[cfg(test)]
mod compile_tables;
#[cfg(test)]
mod compile_tuples;
#[cfg(test)]
mod compile_uses;
