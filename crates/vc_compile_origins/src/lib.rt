//! Where the conditions, terms, rules and actions of a plan come from: a dependency without a fault at a slot, or a
//! constraint without a fault at a tuple. Definitions and laws alone: no function stands here.
#![tactic(auto)]
