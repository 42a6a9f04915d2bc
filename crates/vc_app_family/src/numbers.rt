//! The numbers of a family.

ghost use Rattle.std.specs.Prelude.{◌≡◌, ◌≤◌};
ghost use Rattle.vc_app_family.specs.Families as families;

/// How many values each of its characteristics has.
pub fn value_count(family: u32) -> u32
    ensures value { result ≡ families.value_count family }
    ensures few { result ≤ 5 }
{
    2 + family % 4
}

/// How many characteristics it has.
pub fn characteristic_count(family: u32) -> u32
    ensures { result ≡ families.characteristic_count family }
{
    3 + family % 40
}

/// The number of the value that the characteristic after this one has where this one has the value of this number.
pub fn next_value(family: u32, characteristic: u32, value: u32) -> u64
    ensures { result ≡ families.next_value family characteristic value }
{
    (u64::from(value) * u64::from(family) + u64::from(characteristic))
        % u64::from(value_count(family))
}
