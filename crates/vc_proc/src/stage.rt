//! A stage with what the user chose.

ghost use Rattle.std.specs.Prelude.{◌≡◌};

use vc_plan::{Reading, View};
use vc_plan_users::UserValues;
use vc_value::Value;

/// What a stage says, and what the user put into sets.
#[derive_where(Clone, Copy)]
pub struct Stage<'a, V> {
    pub view: &'a V,
    pub users: &'a UserValues,
}

impl<'a, V: View> View for Stage<'a, V> {
    ghost seen = { λ s. V.seen s.view.now };

    fn here(&self, slot: u32) -> bool {
        self.view.here(slot)
    }

    fn out(&self, var: u32, grain: u32) -> bool {
        self.view.out(var, grain)
    }

    fn value(&self, var: u32) -> Option<Value> {
        self.view.value(var)
    }
}

impl<'a, V: View> Reading for Stage<'a, V> {
    ghost use Rattle.vc_plan.specs.Evaluate.{holds};
    ghost use Rattle.vc_plan_users.specs.Choosing.{users_of};

    ghost holdings = { λ s. holds (users_of s.users.now) };

    fn holds(&self, set: u32, text: u32) -> bool {
        self.users.holds(set, text)
    }
}
