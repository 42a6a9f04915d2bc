//! Laws of reading, each the contract of a function that does nothing.

ghost use Rattle.vc_wire_chains_meanings.specs.Laws.{ValidPlansHaveNumbers};

/// Numbers of 32 bits name what a valid plan has.
pub fn valid_plans_have_numbers()
    ensures { ValidPlansHaveNumbers }
{}
