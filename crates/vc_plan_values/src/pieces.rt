//! Pieces: which values and other pieces lie in them.

ghost use Rattle.std.specs.Prelude.{◌≡◌};
ghost use Rattle.std.specs.List.{list_any};
ghost use Rattle.vc_plan.specs.Pieces.{is_part, lies_in, lies_in_some};

use vc_plan::Piece;
use vc_value::Value;

/// Whether the value lies in the piece.
pub fn lies_in(value: Value, piece: Piece) -> bool
    ensures { result ≡ lies_in value piece }
{
    match (value, piece) {
        (Value::Text(text), Piece::OneText(other)) => other == text,
        (Value::Num(number), Piece::Stretch(grain)) => {
            grain.low.millionths <= number.millionths && number.millionths <= grain.high.millionths
        }
        _ => false,
    }
}

/// Whether the value lies in one of the pieces.
pub fn lies_in_some(pieces: &[Piece], value: Value) -> bool
    ensures { result ≡ lies_in_some pieces.now value }
{
    pieces.iter().any(|piece| lies_in(value, *piece))
}

/// Whether the second piece has all that the first has.
pub fn is_part(part: Piece, whole: Piece) -> bool
    ensures { result ≡ is_part part whole }
{
    match (part, whole) {
        (Piece::OneText(text), Piece::OneText(other)) => text == other,
        (Piece::Stretch(part), Piece::Stretch(whole)) => {
            whole.low.millionths <= part.low.millionths
                && part.high.millionths <= whole.high.millionths
        }
        _ => false,
    }
}

/// Whether the piece lies in one of the others.
pub fn is_part_of_some(piece: Piece, pieces: &[Piece]) -> bool
    ensures { result ≡ list_any (is_part piece) pieces.now }
{
    pieces.iter().any(|whole| is_part(piece, *whole))
}
