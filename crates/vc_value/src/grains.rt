//! The numbers that a characteristic may have, as closed intervals that ascend and share no number.

ghost use Rattle.std.specs.Prelude.{◌≡◌, ◌+◌, ◌-◌, ◌^◌, ◌<◌, ◌≤◌, ◌↔◌, pos, ◌≤ℤ◌, ◌<ℤ◌, FitsSigned, option_to_list};
ghost use Rattle.std.specs.Prelude.{[], ◌∷◌, ◌++◌, length, position, slice_get, flat_map, IsTrue, IfOk, OnOk, OnErr};
ghost use Rattle.std.specs.List.{list_all};
ghost use Rattle.std.specs.Int.{int_rem_euclid, w64};
ghost use Rattle.vc_value.specs.Grains.{interval, holds, is_below, is_ordered, is_ascending, unit_of, has_decimals};
ghost use Rattle.vc_value.specs.Grains.{next_below, next_above, part_between, part_below, part_at, part_above};
ghost use Rattle.vc_value.specs.Grains.{parts_of, cut_at, is_apart, hold};

use crate::decimal::Dec;
use std::alloc::{AllocError, Global};
use std::marker::Model;

/// The numbers from one to another, both of them included.
#[derive(Clone, Copy, Debug, PartialEq, Eq)]
pub struct Grain {
    pub low: Dec,
    pub high: Dec,
}

impl Dec {
    /// Whether the number has no more decimals than these.
    pub fn has_decimals(self, decimals: u8) -> bool
        ensures { result ≡ has_decimals decimals self }
    {
        rest_of(unit_of(decimals), self) == 0
    }
}

impl Grain {
    /// Whether the number is one of the grain's.
    pub fn holds(self, number: Dec) -> bool
        ensures { result ≡ holds number self }
    {
        self.low.millionths <= number.millionths && number.millionths <= self.high.millionths
    }

    /// Whether all of the grain's numbers lie below this one.
    pub fn lies_below(self, number: Dec) -> bool
        ensures { result ≡ is_below number self }
    {
        self.high.millionths < number.millionths
    }
}

/// Grains that ascend and share no number, which a contract sees as their list.
#[derive(Debug, Drop)]
pub struct GrainList {
    grains: Vec<Grain>,
}

impl Model for GrainList {
    ghost use Rattle.std.specs.Prelude.{List, length, IsTrue, ◌^◌, ◌<◌};
    ghost use Rattle.vc_value.specs.declared.grains.Grain.{Grain};
    ghost use Rattle.vc_value.specs.Grains.{is_ascending};

    ghost Value = { List Grain };

    ghost view = { λ l. l.grains.items };

    ghost invariant = { λ l. IsTrue (is_ascending l.grains.items) × (length l.grains.items < 2 ^ 32) };
}

impl GrainList {
    /// The empty list.
    pub fn new(alloc: Global) -> GrainList
        ensures { result ≡ [] }
    {
        GrainList {
            grains: Vec::new(alloc),
        }
    }

    /// How many grains there are.
    pub fn count(&self) -> u32
        ensures count { result ≡ length self.now }
        ensures ascending { IsTrue (is_ascending self.now) }
    {
        self.grains.len() as u32
    }

    /// The grain of this number, counted from 0.
    pub fn grain(&self, n: u32) -> Grain
        requires { n < length self.now }
        ensures { slice_get self.now n ≡ Some result }
    {
        self.grains[n as usize]
    }

    /// Whether all grains lie below the number, so that a grain may be added there.
    pub fn ends_below(&self, number: Dec) -> bool
        ensures { result ≡ list_all (is_below number) self.now }
    {
        match self.grains.last() {
            Some(last) => last.lies_below(number),
            None => true,
        }
    }

    /// Whether there are too many grains to add one or to cut.
    pub fn is_full(&self) -> bool
        ensures { IsTrue result ↔ (2 ^ 32 - 3 < length self.now) }
    {
        self.grains.len() > 4_294_967_293
    }

    /// Puts a grain last. After an error the list is as before.
    pub fn add(&mut self, grain: Grain) -> Result<(), AllocError>
        requires ordered { IsTrue (is_ordered grain) }
        requires above { IsTrue (list_all (is_below grain.low) self.old) }
        requires room { length self.old ≤ 2 ^ 32 - 3 }
        ensures ok { OnOk result (self.new ≡ self.old ++ grain ∷ []) }
        ensures err { OnErr result (self.new ≡ self.old) }
    {
        self.grains.push(grain)?;
        Ok(())
    }

    /// Cuts at a number, so that no grain has numbers on both sides of it or beside it. After an
    /// error the list is as before.
    pub fn cut(&mut self, alloc: Global, decimals: u8, at: Dec) -> Result<(), AllocError>
        requires { length self.old ≤ 2 ^ 32 - 3 }
        ensures ok { OnOk result (self.new ≡ cut_at decimals at self.old) }
        ensures err { OnErr result (self.new ≡ self.old) }

        // No number of these decimals is lost, and none is added.
        ensures apart { OnOk result (IsTrue (list_all (is_apart at) self.new)) }
        ensures kept { OnOk result ((n : Dec) → IsTrue (has_decimals decimals n) → hold n self.new ≡ hold n self.old) }
    {
        let parts = parts_of_all(alloc, &self.grains, unit_of(decimals), at)?;
        self.grains = parts;
        Ok(())
    }

    /// The number of the grain that holds this number.
    pub fn find(&self, number: Dec) -> Option<u32>
        ensures { result ≡ position (holds number) self.now }
    {
        let index = self
            .grains
            .partition_point(|grain| grain.lies_below(number));
        match self.grains.get(index) {
            Some(grain) if grain.holds(number) => Some(index as u32),
            _ => None,
        }
    }
}

// One at the last of the decimals, in millionths; with more than six decimals one millionth.
fn unit_of(decimals: u8) -> u32
    ensures unit { result ≡ unit_of decimals }
    ensures some { 0 < result }
{
    10u32.pow(u32::from(6u8.saturating_sub(decimals)))
}

// The parts of all grains, in order.
fn parts_of_all(
    alloc: Global,
    grains: &[Grain],
    unit: u32,
    at: Dec,
) -> Result<Vec<Grain>, AllocError>
    requires { 0 < unit }
    ensures { IfOk result (λ parts. parts.items ≡ flat_map (parts_of unit at.millionths) grains.now) }
{
    let mut parts = Vec::new(alloc);
    for grain in grains {
        push_parts(&mut parts, *grain, unit, at)?;
    }
    Ok(parts)
}

// Adds what the grain has below the cut, the cut itself, and what the grain has above it.
fn push_parts(parts: &mut Vec<Grain>, grain: Grain, unit: u32, at: Dec) -> Result<(), AllocError>
    requires { 0 < unit }
    ensures { OnOk result (parts.new.items ≡ parts.old.items ++ parts_of unit at.millionths grain) }
{
    push_part(parts, part_below(unit, at, grain))?;
    push_part(parts, part_at(unit, at, grain))?;
    push_part(parts, part_above(unit, at, grain))?;
    Ok(())
}

fn push_part(parts: &mut Vec<Grain>, part: Option<Grain>) -> Result<(), AllocError>
    ensures { OnOk result (parts.new.items ≡ parts.old.items ++ option_to_list part) }
{
    if let Some(grain) = part {
        parts.push(grain)?;
    }
    Ok(())
}

// What the grain has below the cut.
fn part_below(unit: u32, at: Dec, grain: Grain) -> Option<Grain>
    requires { 0 < unit }
    ensures { option_to_list result ≡ part_below unit at.millionths grain }
{
    part_between(
        i128::from(grain.low.millionths),
        next_below(unit, at),
        grain,
    )
}

// The cut itself, if the grain has it.
fn part_at(unit: u32, at: Dec, grain: Grain) -> Option<Grain>
    requires { 0 < unit }
    ensures { option_to_list result ≡ part_at unit at.millionths grain }
{
    if rest_of(unit, at) == 0 {
        part_between(i128::from(at.millionths), i128::from(at.millionths), grain)
    } else {
        None
    }
}

// What the grain has above the cut.
fn part_above(unit: u32, at: Dec, grain: Grain) -> Option<Grain>
    requires { 0 < unit }
    ensures { option_to_list result ≡ part_above unit at.millionths grain }
{
    part_between(
        next_above(unit, at),
        i128::from(grain.high.millionths),
        grain,
    )
}

// What the grain has between two counts of millionths.
fn part_between(low: i128, high: i128, grain: Grain) -> Option<Grain>
    ensures { option_to_list result ≡ part_between low high grain }
{
    let from = i128::from(grain.low.millionths).max(low);
    let to = i128::from(grain.high.millionths).min(high);
    if from <= to {
        Some(interval(from, to))
    } else {
        None
    }
}

// The numbers from one count of millionths to another.
fn interval(low: i128, high: i128) -> Grain
    requires low { FitsSigned w64 low }
    requires high { FitsSigned w64 high }
    ensures { result ≡ interval low high }
{
    Grain {
        low: Dec {
            millionths: low as i64,
        },
        high: Dec {
            millionths: high as i64,
        },
    }
}

// How far the count is above a whole number of units.
fn rest_of(unit: u32, at: Dec) -> i128
    requires { 0 < unit }
    ensures rest { result ≡ int_rem_euclid at.millionths (pos unit) }
    ensures from { pos 0 ≤ℤ result }
    ensures below { result <ℤ pos unit }
{
    i128::from(at.millionths).rem_euclid(i128::from(unit))
}

fn next_below(unit: u32, at: Dec) -> i128
    requires { 0 < unit }
    ensures { result ≡ next_below unit at.millionths }
{
    let rest = rest_of(unit, at);
    if rest == 0 {
        i128::from(at.millionths) - i128::from(unit)
    } else {
        i128::from(at.millionths) - rest
    }
}

fn next_above(unit: u32, at: Dec) -> i128
    requires { 0 < unit }
    ensures { result ≡ next_above unit at.millionths }
{
    i128::from(at.millionths) - rest_of(unit, at) + i128::from(unit)
}
