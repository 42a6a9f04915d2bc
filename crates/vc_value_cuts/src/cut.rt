//! A cut, and what it makes of grains.

ghost use Rattle.std.specs.Prelude.{◌≡◌, ◌++◌, ◌<◌, pos, ◌≤ℤ◌, ◌<ℤ◌, IfOk, IsTrue, OnOk};
ghost use Rattle.std.specs.Int.{int_rem_euclid};
ghost use Rattle.vc_value.specs.Grains.{cut_at, is_ascending, is_ordered, next_above, next_below, parts_of, unit_of};
ghost use Rattle.vc_value_cuts.specs.Made as made;

use std::alloc::{AllocError, Global};
use vc_value::{Dec, Grain, GrainList};

/// A number at which numbers of so many decimals are cut, with the numbers next to it, in
/// millionths, and whether it has no more decimals itself.
#[derive(Clone, Copy, Debug, PartialEq, Eq)]
pub struct Cut {
    pub decimals: u8,
    pub at: Dec,
    pub below: i128,
    pub above: i128,
    pub whole: bool,
}

// One at the last of the decimals, in millionths; with more than six decimals one millionth.
fn unit_of(decimals: u8) -> u32
    ensures unit { result ≡ unit_of decimals }
    ensures some { 0 < result }
{
    10u32.pow(u32::from(6u8.saturating_sub(decimals)))
}

// How far the count is above a whole number of units.
fn rest_of(unit: u32, at: Dec) -> i128
    requires { 0 < unit }
    ensures rest { result ≡ int_rem_euclid at.millionths (pos unit) }
    ensures from { pos 0 ≤ℤ result }
    ensures below { result <ℤ pos unit }
{
    i128::from(at.millionths).rem_euclid(i128::from(unit))
}

fn next_below(unit: u32, at: Dec) -> i128
    requires { 0 < unit }
    ensures { result ≡ next_below unit at.millionths }
{
    let rest = rest_of(unit, at);
    if rest == 0 {
        i128::from(at.millionths) - i128::from(unit)
    } else {
        i128::from(at.millionths) - rest
    }
}

fn next_above(unit: u32, at: Dec) -> i128
    requires { 0 < unit }
    ensures { result ≡ next_above unit at.millionths }
{
    i128::from(at.millionths) - rest_of(unit, at) + i128::from(unit)
}

/// Puts the grains of a list.
pub fn put_grains(out: &mut Vec<Grain>, list: &GrainList) -> Result<(), AllocError>
    ensures ascending { IsTrue (is_ascending list.now) }
    ensures put { OnOk result (out.new.items ≡ out.old.items ++ list.now) }
{
    for n in 0..list.count() {
        out.push(list.grain(n))?;
    }
    Ok(())
}

impl Cut {
    /// The cut of numbers of so many decimals at a number.
    pub fn new(decimals: u8, at: Dec) -> Cut
        ensures cut { made.IsCut result }
        ensures decimals { result.decimals ≡ decimals }
        ensures at { result.at ≡ at }
    {
        let unit = unit_of(decimals);
        Cut {
            decimals,
            at,
            below: next_below(unit, at),
            above: next_above(unit, at),
            whole: at.has_decimals(decimals),
        }
    }

    // Whether the grain's numbers lie below those beside the cut.
    fn is_above(&self, grain: &Grain) -> bool
        ensures { result ≡ made.lies_below self.now grain.now }
    {
        i128::from(grain.high.millionths) <= self.below
    }

    fn is_below(&self, grain: &Grain) -> bool
        ensures { result ≡ made.lies_above self.now grain.now }
    {
        self.above <= i128::from(grain.low.millionths)
    }

    fn is_both_ends_of(&self, grain: &Grain) -> bool
        ensures { result ≡ made.has_ends self.now grain.now }
    {
        grain.low.millionths == self.at.millionths && grain.high.millionths == self.at.millionths
    }

    fn is_all_of(&self, grain: &Grain) -> bool
        ensures { result ≡ made.is_point self.now grain.now }
    {
        self.whole && self.is_both_ends_of(grain)
    }

    fn is_below_first_of(&self, grains: &[Grain]) -> bool
        ensures { result ≡ made.starts_above self.now grains.now }
    {
        match grains.first() {
            Some(grain) => self.is_below(grain),
            None => true,
        }
    }

    fn leaves_first_of(&self, grains: &[Grain]) -> bool
        ensures { result ≡ made.is_left_first self.now grains.now }
    {
        match grains {
            [] => true,
            [grain, more @ ..] => {
                self.is_below(grain) || (self.is_all_of(grain) && self.is_below_first_of(more))
            }
        }
    }

    // Whether the cut is made, where all grains but the last of those that lie below it are gone.
    fn is_made_from(&self, grains: &[Grain]) -> bool
        ensures { result ≡ made.is_made self.now grains.now }
    {
        for (place, grain) in grains.iter().enumerate() {
            if !self.is_above(grain) {
                return self.leaves_first_of(&grains[place..]);
            }
        }
        true
    }

    /// Whether the cut changes nothing, as it was made already or lies outside.
    pub fn is_made(&self, grains: &[Grain]) -> bool
        requires { IsTrue (is_ascending grains.now) }
        ensures { result ≡ made.is_made self.now grains.now }
    {
        let start = grains.partition_point(|grain| self.is_above(grain));
        self.is_made_from(&grains[start..])
    }

    fn put_parts(&self, alloc: Global, out: &mut Vec<Grain>, grain: Grain) -> Result<(), AllocError>
        requires { IsTrue (is_ordered grain) }
        ensures { OnOk result (out.new.items ≡ out.old.items
            ++ parts_of (unit_of self.now.decimals) self.now.at.millionths grain) }
    {
        let mut parts = GrainList::new(alloc);
        parts.add(grain)?;
        parts.cut(alloc, self.decimals, self.at)?;
        put_grains(out, &parts)
    }

    fn put_cut(&self, alloc: Global, out: &mut Vec<Grain>, grain: Grain) -> Result<(), AllocError>
        requires cut { made.IsCut self.now }
        requires ordered { IsTrue (is_ordered grain) }
        ensures { OnOk result (out.new.items ≡ out.old.items
            ++ parts_of (unit_of self.now.decimals) self.now.at.millionths grain) }
    {
        if self.is_above(&grain) || self.is_below(&grain) {
            out.push(grain)?;
            Ok(())
        } else {
            self.put_parts(alloc, out, grain)
        }
    }

    /// The grains, cut.
    pub fn of(&self, alloc: Global, grains: &[Grain]) -> Result<Vec<Grain>, AllocError>
        requires cut { made.IsCut self.now }
        requires ascending { IsTrue (is_ascending grains.now) }
        ensures { IfOk result (λ cut. cut.items ≡ cut_at self.now.decimals self.now.at grains.now) }
    {
        let mut cut = Vec::with_capacity(alloc, grains.len())?;
        for grain in grains {
            self.put_cut(alloc, &mut cut, *grain)?;
        }
        Ok(cut)
    }
}
