//! Pieces that follow each other without a gap in one entry of a list, joined into one.

ghost use Rattle.std.specs.Prelude.{◌≡◌, ◌&&◌, ◌^◌, ◌≤◌, IfOk};
ghost use Rattle.std.specs.List.{list_any};
ghost use Rattle.vc_plan.specs.Pieces.{is_part};
ghost use Rattle.vc_plan.specs.Domains.{grains_in};
ghost use Rattle.vc_show_rows.specs.Joining as joining;

use std::alloc::{AllocError, Global};
use vc_plan::Piece;
use vc_plan_values::is_part;
use vc_value::{Grain, Listed};

// Whether the second piece begins with the number after the last of the first.
fn follows(unit: u32, piece: Piece, next: Piece) -> bool
    ensures { result ≡ joining.follows unit piece next }
{
    match (piece, next) {
        (Piece::Stretch(piece), Piece::Stretch(next)) => {
            i128::from(next.low.millionths) == i128::from(piece.high.millionths) + i128::from(unit)
        }
        _ => false,
    }
}

fn has_both(piece: Piece, next: Piece, entry: Piece) -> bool
    ensures { result ≡ joining.has_both piece next entry }
{
    is_part(piece, entry) && is_part(next, entry)
}

fn some_has_both(entries: &[Piece], piece: Piece, next: Piece) -> bool
    ensures { result ≡ list_any (joining.has_both piece next) entries.now }
{
    for entry in entries {
        if has_both(piece, next, *entry) {
            return true;
        }
    }
    false
}

fn goes_on(unit: u32, entries: &[Piece], piece: Piece, next: Piece) -> bool
    ensures { result ≡ joining.goes_on unit entries.now piece next }
{
    follows(unit, piece, next) && some_has_both(entries, piece, next)
}

fn hull(piece: Piece, next: Piece) -> Piece
    ensures { result ≡ joining.hull piece next }
{
    match (piece, next) {
        (Piece::Stretch(piece), Piece::Stretch(next)) => Piece::Stretch(Grain {
            low: piece.low,
            high: next.high,
        }),
        _ => next,
    }
}

/// The pieces in order, each joined to the one before as long as it goes on in one of the entries.
pub fn joined(
    alloc: Global,
    unit: u32,
    entries: &[Piece],
    pieces: &[Piece],
) -> Result<Listed<Piece>, AllocError>
    ensures { IfOk result (λ joined. joined ≡ joining.joined unit entries.now pieces.now) }
{
    let mut out = Listed::new(alloc);
    let [first, rest @ ..] = pieces else {
        return Ok(out);
    };
    let mut current = *first;
    for next in rest {
        if goes_on(unit, entries, current, *next) {
            current = hull(current, *next);
        } else {
            out.push(current)?;
            current = *next;
        }
    }
    out.push(current)?;
    Ok(out)
}
