//! The texts that the user put into sets.

ghost use Rattle.std.specs.Prelude.{◌≡◌, not};
ghost use Rattle.std.specs.List.{list_any};
ghost use Rattle.vc_plan.specs.Kleene.{is_true};
ghost use Rattle.vc_plan.specs.Showing.{is_empty, is_text};
ghost use Rattle.vc_show.specs.Sets.{set_texts};

use vc_plan::{Piece, Plan, Reading};
use vc_plan_values::is_true;
use vc_rule_readings::sets::{set_filled, set_holds};

/// Whether the set has a text.
#[tactic(auto, using(crate::proofs::SetLemmas::filled))]
pub fn is_filled<R: Reading>(plan: &Plan, reading: &R, set: u32) -> bool
    ensures { result ≡ not (is_empty (set_texts plan.now (R.holdings reading.now) set)) }
{
    is_true(set_filled(plan, reading, set))
}

/// Whether the set has the text that the piece is.
#[tactic(auto, using(crate::proofs::SetLemmas::held))]
pub fn has_piece<R: Reading>(plan: &Plan, reading: &R, set: u32, piece: Piece) -> bool
    ensures { result ≡ list_any (is_text piece) (set_texts plan.now (R.holdings reading.now) set) }
{
    match piece {
        Piece::OneText(text) => is_true(set_holds(plan, reading, set, text)),
        Piece::Stretch(_) => false,
    }
}
