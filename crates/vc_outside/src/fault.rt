//! A call that failed, and calls in memory of which some are to fail.

ghost use Rattle.std.specs.Prelude.{◌≡◌, ◌<◌, ◌≤◌, [], ◌∷◌, ◌++◌, false, IsTrue, OnOk, OnErr};
ghost use Rattle.vc_outside.specs.Faults.{faults_of, next_fails, with_call};

use std::alloc::{AllocError, Global};
use std::marker::Model;

/// A call of the outside failed. Its count of faults was raised.
#[derive(Clone, Copy, Debug, PartialEq, Eq)]
pub struct Failed;

/// Counts calls, some of which are to fail.
#[derive(Debug, Drop)]
pub(crate) struct Failures {
    made: u64,
    failing: Vec<u64>,
}

impl Model for Failures {
    ghost use Rattle.vc_outside.specs.Faults.{Calls};

    ghost Value = { Calls };

    ghost view = { λ f. record { made = f.made; failing = f.failing.items } };
}

impl Failures {
    /// No call was made, and none is to fail.
    pub(crate) fn new(alloc: Global) -> Failures
        ensures { result ≡ record { made = 0; failing = [] } }
    {
        Failures {
            made: 0,
            failing: Vec::new(alloc),
        }
    }

    /// Lets the call of this number, counted from 1, fail. After an error nothing changed.
    pub(crate) fn fail_at(&mut self, call: u64) -> Result<(), AllocError>
        ensures ok { OnOk result (self.new ≡ record self.old { failing = self.old.failing ++ call ∷ [] }) }
        ensures err { OnErr result (self.new ≡ self.old) }
    {
        self.failing.push(call)?;
        Ok(())
    }

    /// Counts one call more, and answers whether it is to fail.
    pub(crate) fn next_fails(&mut self) -> bool
        ensures fails { result ≡ next_fails self.old }
        ensures made { self.new ≡ with_call self.old }
        ensures later { faults_of self.old ≤ faults_of self.new }
        ensures raised { IsTrue result → faults_of self.old < faults_of self.new }
        ensures calm { result ≡ false → faults_of self.new ≡ faults_of self.old }
    {
        match self.made.checked_add(1) {
            Some(made) => {
                self.made = made;
                self.failing.contains(&made)
            }
            None => false,
        }
    }
}
