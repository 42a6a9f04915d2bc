//! Tokens, dependencies and what is printed of them, called with ample memory.
#![tactic(auto)]

#[cfg(test)]
mod syntax_print;
#[cfg(test)]
mod syntax_print_model;
#[cfg(test)]
mod syntax_reading;
#[cfg(test)]
mod syntax_terms;
#[cfg(test)]
mod syntax_tokens;
#[cfg(test)]
mod syntax_tree;
