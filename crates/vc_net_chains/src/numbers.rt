//! The numbers that steps have once others are left out.

ghost use Rattle.std.specs.Prelude.{◌≡◌, ◌+◌, ◌-◌, ◌^◌, ◌<◌, ◌≤◌, length, map, IfOk};
ghost use Rattle.vc_net_chains.specs.Leaving.{counted, last_in, number_in, number_past, raised};

use std::alloc::{AllocError, Global};
use vc_value::Listed;

/// By step the number that it has among those that are flagged, or that the last of those before it has.
pub fn numbers_by(alloc: Global, flags: &[bool]) -> Result<Listed<u32>, AllocError>
    requires { length flags.now < 2 ^ 32 }
    ensures { IfOk result (λ numbers. numbers ≡ counted 0 flags.now) }
{
    let mut numbers = Listed::new(alloc);
    let mut count = 0;
    let mut rest = flags;
    while let [flag, more @ ..] = rest {
        count = raised(*flag, count);
        numbers.push(count)?;
        rest = more;
    }
    Ok(numbers)
}

// One more, if the step is flagged.
fn raised(flag: bool, count: u32) -> u32
    requires { count + 1 < 2 ^ 32 }
    ensures value { result ≡ raised flag count }
    ensures few { result ≤ count + 1 }
{
    if flag { count + 1 } else { count }
}

/// The new numbers of these.
pub fn new_numbers(alloc: Global, numbers: &[u32], cited: &[u32]) -> Result<Listed<u32>, AllocError>
    ensures { IfOk result (λ left. left ≡ map (number_in numbers.now) cited.now) }
{
    let mut left = Listed::new(alloc);
    let mut rest = cited;
    while let [number, more @ ..] = rest {
        left.push(new_number(numbers, *number))?;
        rest = more;
    }
    Ok(left)
}

/// The new number of a step; past all of them the numbers go on as they did.
pub fn new_number(numbers: &[u32], number: u32) -> u32
    ensures { result ≡ number_in numbers.now number }
{
    if number == 0 {
        return 0;
    }
    match numbers.get(number as usize - 1) {
        Some(new) => *new,
        None => number_past(numbers, number),
    }
}

// As many less as steps are left out.
fn number_past(numbers: &[u32], number: u32) -> u32
    ensures { result ≡ number_past numbers.now number }
{
    let left_out = numbers.len().saturating_sub(last_number(numbers) as usize);
    (number as usize).saturating_sub(left_out) as u32
}

// The number of the last step; 0 where there is none.
fn last_number(numbers: &[u32]) -> u32
    ensures { result ≡ last_in numbers.now }
{
    match numbers.get(numbers.len().saturating_sub(1)) {
        Some(last) => *last,
        None => 0,
    }
}
