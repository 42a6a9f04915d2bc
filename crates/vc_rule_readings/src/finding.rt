//! Variables and sets of texts by slot and characteristic. They come by their slots, so those of a slot are found by
//! halves.

ghost use Rattle.std.specs.Prelude.{◌≡◌, ◌<◌, ◌≤◌, ◌^◌, ℕ, true, length, slice_get, Some};
ghost use Rattle.vc_plan.specs.Parts.{var_of};
ghost use Rattle.vc_rule_readings.specs.Finding.{first_at, is_at, stands_by};

use vc_plan::{Plan, TextSet, Var, element};

/// What has a characteristic at a slot.
pub trait AtSlot {
    ghost slot_of: { Self → ℕ };

    ghost characteristic_of: { Self → ℕ };

    fn slot(&self) -> u32
        ensures { result ≡ slot_of self.now };

    fn characteristic(&self) -> u32
        ensures { result ≡ characteristic_of self.now };
}

impl AtSlot for Var {
    ghost slot_of = { λ x. x.slot };

    ghost characteristic_of = { λ x. x.characteristic };

    fn slot(&self) -> u32 {
        self.slot
    }

    fn characteristic(&self) -> u32 {
        self.characteristic
    }
}

impl AtSlot for TextSet {
    ghost slot_of = { λ x. x.slot };

    ghost characteristic_of = { λ x. x.characteristic };

    fn slot(&self) -> u32 {
        self.slot
    }

    fn characteristic(&self) -> u32 {
        self.characteristic
    }
}

// Where the things of the slot begin.
fn begin_of<T: AtSlot>(things: &[T], slot: u32) -> usize
    requires { stands_by T.slot_of things.now ≡ true }
    ensures bound { result ≤ length things.now }
    ensures before { (k : ℕ) (x : T) → slice_get things.now k ≡ Some x → k < result → T.slot_of x < slot }
{
    things.partition_point(|thing| thing.slot() < slot)
}

// Where they end.
fn end_of<T: AtSlot>(things: &[T], slot: u32) -> usize
    requires { stands_by T.slot_of things.now ≡ true }
    ensures bound { result ≤ length things.now }
    ensures after { (k : ℕ) (x : T) → slice_get things.now k ≡ Some x → result ≤ k → slot < T.slot_of x }
{
    things.partition_point(|thing| thing.slot() <= slot)
}

fn is_at<T: AtSlot>(things: &[T], slot: u32, characteristic: u32, number: u32) -> bool
    ensures { result ≡ is_at T.slot_of T.characteristic_of slot characteristic (slice_get things.now number) }
{
    match element(things, number) {
        Some(thing) => thing.slot() == slot && thing.characteristic() == characteristic,
        None => false,
    }
}

/// The number of the thing that has the characteristic at the slot, if one has.
#[tactic(auto, using(vc_base::proofs::RangeLaws::finding))]
pub fn number_at<T: AtSlot>(things: &[T], slot: u32, characteristic: u32) -> Option<u32>
    requires few { length things.now < 2 ^ 32 }
    requires order { stands_by T.slot_of things.now ≡ true }
    ensures { result ≡ first_at T.slot_of T.characteristic_of slot characteristic things.now }
{
    let begin = begin_of(things, slot) as u32;
    let end = end_of(things, slot) as u32;
    for number in begin..end {
        if is_at(things, slot, characteristic, number) {
            return Some(number);
        }
    }
    None
}

/// The slot's variable of the characteristic, if its class has that.
#[tactic(auto, using(crate::proofs::FindingLemmas::first_var))]
pub fn var_of(plan: &Plan, slot: u32, characteristic: u32) -> Option<u32>
    requires few { length plan.now.vars < 2 ^ 32 }
    requires order { stands_by (λ x. x.slot) plan.now.vars ≡ true }
    ensures { result ≡ var_of plan.now slot characteristic }
{
    number_at(plan.vars.as_slice(), slot, characteristic)
}
