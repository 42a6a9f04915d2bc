//! How a bill's numbers are printed: into the text at hand, digit by digit.

ghost use Rattle.std.specs.Prelude.{◌≡◌, ◌++◌, ◌+◌, ◌*◌, ◌/◌, ◌<◌, ◌≤◌, ◌^◌, OnOk};
ghost use Rattle.std.specs.Fmt.{decimal};
ghost use Rattle.vc_value.specs.Numerals as numerals;

use std::alloc::AllocError;
use vc_value::{Dec, Word};

/// Millionths in one.
const ONE: u64 = 1_000_000;

// Puts a number's digits last, without a text of their own.
#[tactic(auto, using(crate::proofs::DigitLemmas::one_digit, crate::proofs::DigitLemmas::more_digits))]
pub(crate) fn put_digits(out: &mut Word, number: u64) -> Result<(), AllocError>
    ensures { OnOk result (out.new ≡ out.old ++ decimal number) }
{
    if number < 10 {
        return out.append(&[b'0' + number as u8]);
    }
    put_digits(out, number / 10)?;
    out.append(&[b'0' + (number % 10) as u8])
}

fn put_minus(out: &mut Word, millionths: i64) -> Result<(), AllocError>
    ensures { OnOk result (out.new ≡ out.old ++ numerals.minus_text millionths) }
{
    if millionths < 0 {
        return out.append_text("-");
    }
    Ok(())
}

// The digit of a place, of which the units are at most nine.
fn digit_of(units: u64, unit: u64) -> u8
    requires some { 0 < unit }
    requires one { units < unit * 10 }
    ensures { result ≡ 48 + units / unit }
{
    b'0' + (units / unit) as u8
}

// Puts so many units of the last of these places after the point, up to the last digit that isn't 0.
fn put_fraction_digits(out: &mut Word, places: u32, units: u64) -> Result<(), AllocError>
    requires few { places ≤ 6 }
    requires below { units < 10 ^ places }
    ensures { OnOk result (out.new ≡ out.old ++ numerals.fraction_digits places units) }
{
    if units == 0 {
        return Ok(());
    }
    let unit = 10u64.pow(places - 1);
    out.append(&[digit_of(units, unit)])?;
    put_fraction_digits(out, places - 1, units % unit)
}

fn put_fraction(out: &mut Word, millionths: u64) -> Result<(), AllocError>
    requires { millionths < 10 ^ 6 }
    ensures { OnOk result (out.new ≡ out.old ++ numerals.fraction_text millionths) }
{
    if millionths == 0 {
        return Ok(());
    }
    out.append_text(".")?;
    put_fraction_digits(out, 6, millionths)
}

fn put_magnitude(out: &mut Word, millionths: u64) -> Result<(), AllocError>
    ensures { OnOk result (out.new ≡ out.old ++ numerals.magnitude_text millionths) }
{
    put_digits(out, millionths / ONE)?;
    put_fraction(out, millionths % ONE)
}

// Puts a number last, as numbers are printed.
pub(crate) fn put_decimal(out: &mut Word, number: Dec) -> Result<(), AllocError>
    ensures { OnOk result (out.new ≡ out.old ++ numerals.number_text number) }
{
    put_minus(out, number.millionths)?;
    put_magnitude(out, number.millionths.unsigned_abs())
}
