//! Slots of the same object below the same object, where the same is typed: the first of them is enough.

ghost use Rattle.std.specs.Prelude.{◌≡◌};
ghost use Rattle.std.specs.List.{list_any};
ghost use Rattle.vc_compile_layout.specs.Standing.{layout_seen};
ghost use Rattle.vc_compile_typing.specs.Alike.{is_alike, is_same};

use vc_compile_layout::Layout;
use vc_compile_sites::place_at;
use vc_plan::Slot;
use vc_types::At;

fn is_same(a: Option<u32>, b: Option<u32>) -> bool
    ensures { result ≡ is_same a b }
{
    match (a, b) {
        (None, None) => true,
        (Some(a), Some(b)) => a == b,
        _ => false,
    }
}

fn is_alike(layout: &Layout<'_, '_>, slot: &Slot, other: &Slot) -> bool
    ensures { result ≡ is_alike (layout_seen layout.now) slot.now other.now }
{
    let place = place_at(layout, slot, At::Operation);
    let other = place_at(layout, other, At::Operation);
    place.object == other.object && is_same(place.parent, other.parent)
}

/// Whether at some of these slots the same is typed as at the slot.
pub fn has_alike(layout: &Layout<'_, '_>, slots: &[Slot], slot: &Slot) -> bool
    ensures { result ≡ list_any (is_alike (layout_seen layout.now) slot.now) slots.now }
{
    for other in slots {
        if is_alike(layout, slot, other) {
            return true;
        }
    }
    false
}
