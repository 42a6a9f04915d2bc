//! Tests of pieces.

ghost use Rattle.std.specs.Prelude.{◌≡◌, IfSome};
ghost use Rattle.vc_rule_grains.specs.Finding.{PassesOnly};
ghost use Rattle.vc_rule_grains.specs.Kinds.{any_piece};

use vc_plan::Piece;
use vc_value::Value;

/// A test that some pieces pass.
pub trait Test {
    ghost use Rattle.std.specs.Prelude.{Bool};
    ghost use Rattle.vc_plan.specs.declared.conditions.Piece.{Piece};

    ghost passes: { Self → Piece → Bool };

    /// Whether the piece passes.
    fn passes(&self, piece: Piece) -> bool
        ensures { result ≡ passes self.now piece };

    /// A value that each piece holds that passes, if there is one to tell.
    fn only(&self) -> Option<Value>
        ensures { IfSome result (PassesOnly (passes self.now)) };
}

/// What every piece passes.
#[derive(Drop)]
pub struct AnyPiece;

impl Test for AnyPiece {
    ghost use Rattle.vc_rule_grains.specs.Kinds.{any_piece};

    ghost passes = { λ s. any_piece };

    fn passes(&self, _piece: Piece) -> bool {
        true
    }

    fn only(&self) -> Option<Value> {
        None
    }
}
