//! A stage with what statements wrote.

ghost use Rattle.std.specs.Prelude.{◌≡◌};

use vc_plan::{Mark, Reading, View};
use vc_value::Value;

/// What statements wrote.
pub trait Marks {
    ghost use Rattle.std.specs.Prelude.{option_map};
    ghost use Rattle.vc_plan.specs.Entries.{Entries, written_at};

    ghost entries: { Self → Entries };

    /// The mark of what stands for the variable, if anything does.
    fn mark(&self, var: u32) -> Option<Mark>
        ensures { result ≡ option_map (λ written. written.mark) (written_at (entries self.now) var) };
}

/// A stage as procedures read it: what stands for a variable comes before its value in the stage.
#[derive_where(Clone, Copy)]
pub struct Beside<'a, R, M> {
    pub stage: &'a R,
    pub written: &'a M,
}

impl<'a, R: Reading, M: Marks> View for Beside<'a, R, M> {
    ghost use Rattle.vc_rule_readings.specs.Beside.{seen_beside};

    ghost seen = { λ s. seen_beside (R.seen s.stage.now) (M.entries s.written.now) };

    fn here(&self, slot: u32) -> bool {
        self.stage.here(slot)
    }

    fn out(&self, var: u32, grain: u32) -> bool {
        self.stage.out(var, grain)
    }

    #[tactic(auto, using(crate::proofs::BesideLemmas::beside))]
    fn value(&self, var: u32) -> Option<Value> {
        match self.written.mark(var) {
            Some(Mark::Held(value)) => Some(value),
            Some(Mark::Outside) => None,
            None => self.stage.value(var),
        }
    }
}

impl<'a, R: Reading, M: Marks> Reading for Beside<'a, R, M> {
    ghost holdings = { λ s. R.holdings s.stage.now };

    fn holds(&self, set: u32, text: u32) -> bool {
        self.stage.holds(set, text)
    }
}
