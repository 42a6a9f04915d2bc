//! What rules, conditions and terms look at.

ghost use Rattle.std.specs.Prelude.{◌≡◌};
ghost use Rattle.vc_plan.specs.Seen.{Seen};

use vc_value::Value;

/// A set of atoms, by what it says.
pub trait View {
    ghost use Rattle.std.specs.Prelude.{ℕ, Bool};
    ghost use Rattle.vc_plan.specs.Seen.{Seen};

    ghost seen: { Self → Seen };

    /// Whether the slot is here.
    fn here(&self, slot: u32) -> bool
        ensures { result ≡ (seen self.now).here slot };

    /// Whether the grain of the variable is out.
    fn out(&self, var: u32, grain: u32) -> bool
        ensures { result ≡ (seen self.now).out var grain };

    /// The variable's value, if it has one.
    fn value(&self, var: u32) -> Option<Value>
        ensures { result ≡ (seen self.now).value var };
}

/// A set of atoms with the user's sets.
pub trait Reading: View {
    ghost use Rattle.std.specs.Prelude.{ℕ, Bool};

    ghost holdings: { Self → ℕ → ℕ → Bool };

    /// Whether the set has the text.
    fn holds(&self, set: u32, text: u32) -> bool
        ensures { result ≡ holdings self.now set text };
}
