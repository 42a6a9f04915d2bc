//! What terms and conditions look at.

ghost use Rattle.std.specs.Prelude.{◌≡◌};

use vc_plan::Kleene;
use vc_value::Value;
use vc_value_wide::Wide;

/// What terms and conditions look at: values, sets, and sums over parts.
pub trait Facts {
    ghost use Rattle.vc_plan.specs.Readings.{Reading};
    ghost use Rattle.vc_plan.specs.Truth.{set_filled, set_holds, specified};
    ghost use Rattle.vc_plan_values.specs.Values.{count_if};

    ghost reading: { Self → Reading };

    ghost can_sum: { Self → Type 0 };

    /// The variable's value, if it has one.
    fn value(&self, var: u32) -> Option<Value>
        ensures { result ≡ (reading self.now).value var };

    /// Whether the variable has a value.
    fn specified(&self, var: u32) -> Kleene
        ensures { result ≡ specified (reading self.now).unspecified ((reading self.now).value var) };

    /// Whether the set has the text.
    fn holds(&self, set: u32, text: u32) -> Kleene
        ensures { result ≡ set_holds text ((reading self.now).texts set) };

    /// Whether the set has a text.
    fn filled(&self, set: u32) -> Kleene
        ensures { result ≡ set_filled (reading self.now).unspecified ((reading self.now).texts set) };

    /// The sum over the slot's parts of quantity times value, if there is one.
    fn part_sum(&self, slot: u32, characteristic: u32) -> Option<Wide>
        requires { can_sum self.now }
        ensures { count_if result ≡ (reading self.now).part_sum slot characteristic };

    /// The sum of the quantities of the slot's parts, if there is one.
    fn part_count(&self, slot: u32) -> Option<Wide>
        requires { can_sum self.now }
        ensures { count_if result ≡ (reading self.now).part_count slot };
}
