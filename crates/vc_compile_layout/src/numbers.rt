//! Numbers by slot and characteristic. Of equal places the first counts.

ghost use Rattle.std.specs.Prelude.{◌≡◌, ◌==◌, ◌&&◌, ◌<◌, ◌^◌, ℕ, length, position, None, Some, OnOk, IfOk};
ghost use Rattle.std.specs.Prelude.{if◌then◌else◌};
ghost use Rattle.std.specs.Option.{option_or};
ghost use Rattle.vc_compile_layout.specs.Numbered.{number_of};

use indexmap::IndexMap;
use std::alloc::{AllocError, Global};
use vc_plan::{TextSet, Var};

/// A characteristic at a slot.
#[derive(Clone, Copy, Debug, PartialEq, Eq, Hash)]
pub struct Spot {
    pub slot: u32,
    pub characteristic: u32,
}

/// What has a characteristic at a slot.
pub trait Spotted {
    ghost slot_of: { Self → ℕ };

    ghost characteristic_of: { Self → ℕ };

    fn spot(&self) -> Spot
        ensures slot { result.slot ≡ slot_of self.now }
        ensures characteristic { result.characteristic ≡ characteristic_of self.now };
}

impl Spotted for Var {
    ghost slot_of = { λ x. x.slot };

    ghost characteristic_of = { λ x. x.characteristic };

    fn spot(&self) -> Spot {
        Spot {
            slot: self.slot,
            characteristic: self.characteristic,
        }
    }
}

impl Spotted for TextSet {
    ghost slot_of = { λ x. x.slot };

    ghost characteristic_of = { λ x. x.characteristic };

    fn spot(&self) -> Spot {
        Spot {
            slot: self.slot,
            characteristic: self.characteristic,
        }
    }
}

/// Numbers by slot and characteristic.
#[derive(Drop)]
pub struct Numbers {
    met: IndexMap<Spot, u32>,
}

impl Numbers {
    /// No numbers.
    pub fn new(alloc: Global) -> Numbers
        ensures { (i c : ℕ) → number_of result i c ≡ None }
    {
        Numbers {
            met: IndexMap::new(alloc),
        }
    }

    /// The number of what has the characteristic at the slot.
    pub fn find(&self, spot: Spot) -> Option<u32>
        ensures { result ≡ number_of self.now spot.slot spot.characteristic }
    {
        self.met.get(&spot).copied()
    }

    /// Gives the characteristic at the slot a number, unless it has one.
    pub fn add(&mut self, spot: Spot, number: u32) -> Result<(), AllocError>
        ensures { OnOk result ((i c : ℕ) → number_of self.new i c ≡ option_or (number_of self.old i c)
            (if (spot.slot == i) && (spot.characteristic == c) then Some number else None)) }
    {
        if self.find(spot).is_none() {
            self.met.insert(spot, number)?;
        }
        Ok(())
    }
}

/// The number of each of a list, by slot and characteristic.
pub fn numbers_of<T: Spotted>(alloc: Global, list: &[T]) -> Result<Numbers, AllocError>
    ensures few { IfOk result (λ numbers. length list.now < 2 ^ 32) }
    ensures numbers { IfOk result (λ numbers. (i c : ℕ) → number_of numbers i c
        ≡ position (λ x. (T.slot_of x == i) && (T.characteristic_of x == c)) list.now) }
{
    if list.len() > u32::MAX as usize {
        return Err(AllocError);
    }
    let mut numbers = Numbers::new(alloc);
    for (number, element) in list.iter().enumerate() {
        numbers.add(element.spot(), number as u32)?;
    }
    Ok(numbers)
}
