//! Where a dependency stands in a plan, and which variable or set an operand is there.

ghost use Rattle.std.specs.Prelude.{◌≡◌, slice_get};
ghost use Rattle.std.specs.List.{position_or_len};
ghost use Rattle.std.specs.Option.{option_copied};
ghost use Rattle.vc_compile_plan.specs.Sites as sites;
ghost use Rattle.vc_compile_layout.specs.Standing.{layout_seen};
ghost use Rattle.vc_compile_sites.specs.Standing.{site_seen};

use vc_compile_layout::Layout;
use vc_syntax_tree::{Object, Operand, Owner};
use vc_types::Meaning;
use vc_types_meanings::Setting;

/// Where a dependency stands in a plan: how its names are meant, the slots of `$SELF` and `$PARENT`, and of
/// a constraint its objects with their slots.
#[derive(Clone, Copy)]
pub struct Site<'s, 'n, 'm, 't> {
    pub setting: &'s Setting<'n, 'm, 't>,
    pub own: u32,
    pub parent: u32,
    pub objects: &'s [Object],
    pub slots: &'s [u32],
}

fn slot_of_owner(site: &Site<'_, '_, '_, '_>, owner: Owner) -> u32
    ensures { result ≡ sites.slot_of_owner (site_seen site.now) owner }
{
    match owner {
        Owner::Itself => site.own,
        Owner::Parent => site.parent,
        Owner::Root => 0,
    }
}

fn number_or_zero(number: Option<&u32>) -> u32
    ensures { result ≡ sites.number_or_zero (option_copied number.entry) }
{
    match number {
        Some(number) => *number,
        None => 0,
    }
}

fn is_called(name: &[u8], object: &Object) -> bool
    ensures { result ≡ sites.is_called name.now object.now }
{
    object.variable.name.is(name)
}

fn has_alias(name: &[u8], object: &Object) -> bool
    ensures { result ≡ sites.has_alias name.now object.now }
{
    object
        .aliases
        .as_slice()
        .iter()
        .any(|alias| alias.variable.name.is(name))
}

// The place of the first object that is called so, or else their count.
fn object_called(objects: &[Object], name: &[u8]) -> usize
    ensures { result ≡ position_or_len (sites.is_called name.now) objects.now }
{
    for (place, object) in objects.iter().enumerate() {
        if is_called(name, object) {
            return place;
        }
    }
    objects.len()
}

// The place of the first object that has the alias, or else their count.
fn object_with_alias(objects: &[Object], name: &[u8]) -> usize
    ensures { result ≡ position_or_len (sites.has_alias name.now) objects.now }
{
    for (place, object) in objects.iter().enumerate() {
        if has_alias(name, object) {
            return place;
        }
    }
    objects.len()
}

impl<'s, 'n, 'm, 't> Site<'s, 'n, 'm, 't> {
    fn slot_of_object(&self, place: usize) -> u32
        ensures { result ≡ sites.number_or_zero (slice_get (site_seen self.now).slots place) }
    {
        number_or_zero(self.slots.get(place))
    }

    /// The slot of which an operand names a characteristic.
    pub fn slot_meant(&self, operand: &Operand) -> u32
        ensures { result ≡ sites.slot_meant (site_seen self.now) operand.now }
    {
        match operand {
            Operand::Plain(_) => self.own,
            Operand::Owned(owner, _) => slot_of_owner(self, *owner),
            Operand::Member(variable, _) => {
                self.slot_of_object(object_called(self.objects, variable.get().name.bytes()))
            }
            Operand::Variable(leaf) => {
                self.slot_of_object(object_with_alias(self.objects, leaf.name.bytes()))
            }
        }
    }

    /// The characteristic that an operand names; any will do where it names none.
    pub fn characteristic_meant(&self, operand: &Operand) -> u32
        ensures { result ≡ sites.characteristic_meant (site_seen self.now) operand.now }
    {
        match self.setting.meaning(operand) {
            Meaning::Characteristic(characteristic) => characteristic,
            _ => 0,
        }
    }

    /// Whether an operand is a set of texts.
    pub fn is_set_meant(&self, operand: &Operand) -> bool
        ensures { result ≡ sites.is_set_meant (site_seen self.now) operand.now }
    {
        self.setting
            .names()
            .is_multiple(self.characteristic_meant(operand))
    }

    /// The variable that an operand is.
    pub fn var_meant(&self, layout: &Layout<'_, '_>, operand: &Operand) -> u32
        ensures { result ≡ sites.var_meant (layout_seen layout.now) (site_seen self.now) operand.now }
    {
        layout.var_number(self.slot_meant(operand), self.characteristic_meant(operand))
    }

    /// The set that an operand is.
    pub fn set_meant(&self, layout: &Layout<'_, '_>, operand: &Operand) -> u32
        ensures { result ≡ sites.set_meant (layout_seen layout.now) (site_seen self.now) operand.now }
    {
        layout.set_number(self.slot_meant(operand), self.characteristic_meant(operand))
    }
}
