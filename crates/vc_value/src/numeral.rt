//! How numbers are printed.

ghost use Rattle.std.specs.Prelude.{◌≡◌, ◌++◌, ◌+◌, ◌*◌, ◌/◌, ◌<◌, ◌^◌, Ok, unsigned_abs, OnOk, IfOk};
ghost use Rattle.vc_value.specs.Decimals.{read_number};
ghost use Rattle.vc_value.specs.declared.decimal.Dec.{Dec};
ghost use Rattle.vc_value.specs.Numerals.{fraction_digits, fraction_text, magnitude_text, minus_text, number_text};
ghost use Rattle.std.specs.Fmt.{decimal};

use crate::decimal::Dec;
use crate::word::Word;
use std::alloc::{AllocError, Global};

/// Millionths in one.
const ONE: u64 = 1_000_000;

impl Dec {
    /// The number's text: an optional `-`, digits without leading zeros, and where it isn't whole
    /// `.` and the millionths without trailing zeros.
    pub fn print(self, alloc: Global) -> Result<Word, AllocError>
        ensures { IfOk result (λ text. text ≡ number_text self) }
    {
        let mut text = Word::new(alloc);
        put_minus(&mut text, self.millionths)?;
        put_magnitude(alloc, &mut text, self.millionths.unsigned_abs())?;
        Ok(text)
    }
}

/// A printed number is read again as the same number.
pub fn printed_is_read()
    ensures { (number : Dec) → unsigned_abs number.millionths < 10 ^ 15 → read_number (number_text number) ≡ Ok number }
{}

fn put_minus(text: &mut Word, millionths: i64) -> Result<(), AllocError>
    ensures { OnOk result (text.new ≡ text.old ++ minus_text millionths) }
{
    if millionths < 0 {
        return text.append_text("-");
    }
    Ok(())
}

fn put_magnitude(alloc: Global, text: &mut Word, millionths: u64) -> Result<(), AllocError>
    ensures { OnOk result (text.new ≡ text.old ++ magnitude_text millionths) }
{
    put_whole(alloc, text, millionths / ONE)?;
    put_fraction(text, millionths % ONE)
}

fn put_whole(alloc: Global, text: &mut Word, whole: u64) -> Result<(), AllocError>
    ensures { OnOk result (text.new ≡ text.old ++ decimal whole) }
{
    let digits = format!(in alloc; "{whole}")?;
    text.append_text(digits.as_str())
}

fn put_fraction(text: &mut Word, millionths: u64) -> Result<(), AllocError>
    requires { millionths < 10 ^ 6 }
    ensures { OnOk result (text.new ≡ text.old ++ fraction_text millionths) }
{
    if millionths == 0 {
        return Ok(());
    }
    text.append_text(".")?;
    put_digits(text, millionths)
}

// The digit of a place, of which the units are at most nine.
fn digit_of(units: u64, unit: u64) -> u8
    requires some { 0 < unit }
    requires one { units < unit * 10 }
    ensures { result ≡ 48 + units / unit }
{
    b'0' + (units / unit) as u8
}

fn put_digits(text: &mut Word, millionths: u64) -> Result<(), AllocError>
    requires { millionths < 10 ^ 6 }
    ensures { OnOk result (text.new ≡ text.old ++ fraction_digits 6 millionths) }
{
    let mut units = millionths;
    let mut places: u32 = 6;
    while units > 0 {
        places -= 1;
        let unit = 10u64.pow(places);
        text.append(&[digit_of(units, unit)])?;
        units %= unit;
    }
    Ok(())
}
