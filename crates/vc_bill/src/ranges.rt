//! Lines by their slots.

ghost use Rattle.std.specs.Prelude.{◌≡◌, ◌<◌, ◌≤◌, ℕ, true, length, slice_get, Some};
ghost use Rattle.vc_plan.specs.declared.plans.Line.{Line as PlanLine};
ghost use Rattle.vc_bill.specs.Fitting.{lines_by_slot};

use vc_plan::Line;

/// Where the lines of the slot begin.
pub fn first_of(lines: &[Line], slot: u32) -> usize
    requires { lines_by_slot lines.now ≡ true }
    ensures bound { result ≤ length lines.now }
    ensures before { (k : ℕ) (x : PlanLine) → slice_get lines.now k ≡ Some x → k < result → x.slot < slot }
    ensures after { (k : ℕ) (x : PlanLine) → slice_get lines.now k ≡ Some x → result ≤ k → slot ≤ x.slot }
{
    lines.partition_point(|line| line.slot < slot)
}

/// Where they end.
pub fn end_of(lines: &[Line], slot: u32) -> usize
    requires { lines_by_slot lines.now ≡ true }
    ensures bound { result ≤ length lines.now }
    ensures before { (k : ℕ) (x : PlanLine) → slice_get lines.now k ≡ Some x → k < result → x.slot ≤ slot }
    ensures after { (k : ℕ) (x : PlanLine) → slice_get lines.now k ≡ Some x → result ≤ k → slot < x.slot }
{
    lines.partition_point(|line| line.slot <= slot)
}
