//! A characteristic by its name.

ghost use Rattle.std.specs.Prelude.{◌≡◌, drop, slice_get};
ghost use Rattle.std.specs.List.{find};
ghost use Rattle.vc_plan.specs.Valid.{IsValid};
ghost use Rattle.vc_desk_names.specs.Meant as meant;
ghost use Rattle.vc_show.specs.Fitting.{ShownFits};

use vc_plan::{Named, Plan, element};
use vc_show_rows::finding::{class_of, named_of};
use vc_value::equals_ignoring_case;

fn is_called(plan: &Plan, characteristic: u32, name: &[u8]) -> bool
    ensures { result ≡ meant.is_called name.now (slice_get plan.now.characteristics characteristic) }
{
    match element(plan.characteristics.as_slice(), characteristic) {
        Some(characteristic) => equals_ignoring_case(characteristic.name.bytes(), name),
        None => false,
    }
}

// The first characteristic with this name from a place of the class on; the place is then the next one.
fn named_from(plan: &Plan, class: &[u32], name: &[u8], place: &mut usize) -> Option<u32>
    ensures { result ≡ find (λ c. meant.is_called name.now (slice_get plan.now.characteristics c))
        (drop place.old class.now) }
{
    for at in *place..class.len() {
        if is_called(plan, class[at], name) {
            *place = at + 1;
            return Some(class[at]);
        }
    }
    None
}

fn characteristic_named(plan: &Plan, slot: u32, name: &[u8]) -> Option<u32>
    ensures { result ≡ meant.characteristic_named plan.now slot name.now }
{
    named_from(plan, class_of(plan, slot), name, &mut 0)
}

// The same, looked for first from the place on.
fn characteristic_near(plan: &Plan, slot: u32, name: &[u8], place: &mut usize) -> Option<u32>
    requires { IsValid plan.now }
    ensures { result ≡ meant.characteristic_named plan.now slot name.now }
{
    let class = class_of(plan, slot);
    match named_from(plan, class, name, place) {
        Some(characteristic) => Some(characteristic),
        None => {
            *place = 0;
            named_from(plan, class, name, place)
        }
    }
}

fn named_if(plan: &Plan, slot: u32, characteristic: Option<u32>) -> Option<Named>
    requires { ShownFits plan.now }
    ensures { result ≡ meant.named_if plan.now slot characteristic }
{
    match characteristic {
        Some(characteristic) => named_of(plan, slot, characteristic),
        None => None,
    }
}

/// The variable or the set of the slot whose characteristic has this name, in letters of either case.
pub fn find_named(plan: &Plan, slot: u32, name: &[u8]) -> Option<Named>
    requires { ShownFits plan.now }
    ensures { result ≡ meant.find_named plan.now slot name.now }
{
    named_if(plan, slot, characteristic_named(plan, slot, name))
}

/// The same, looked for first from a place of the slot's class on; the place is then behind it. Who asks for one after
/// another, in the order of the class, has each at once, whatever the place was at first.
pub fn find_named_near(plan: &Plan, slot: u32, name: &[u8], place: &mut usize) -> Option<Named>
    requires { IsValid plan.now }
    ensures { result ≡ meant.find_named plan.now slot name.now }
{
    named_if(plan, slot, characteristic_near(plan, slot, name, place))
}
