//! The theory of settling, for any kind of atoms: sets as lists, what givers give at a set, the least fixpoint by
//! rounds, and sets that grow one atom at a time. Definitions and laws alone: no function stands here.
#![tactic(auto)]
