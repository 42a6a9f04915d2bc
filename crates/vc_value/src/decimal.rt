//! Stored numbers, in millionths.

ghost use Rattle.std.specs.Prelude.{◌≡◌, ◌==◌, ◌&&◌, ◌+◌, ◌-◌, ◌*◌, ◌^◌, ◌<◌, ◌≤◌, not, length, position, IsTrue};
ghost use Rattle.std.specs.Prelude.{IfOk, unsigned_abs};
ghost use Rattle.std.specs.List.{list_all};
ghost use Rattle.std.specs.Option.{option_copied};
ghost use Rattle.std.specs.Char.{is_ascii_digit};
ghost use Rattle.vc_value.specs.Decimals.{is_negative, unsigned_text, is_point, whole_part, fraction_part};
ghost use Rattle.vc_value.specs.Decimals.{are_digits, is_fraction, significant, fraction_fits, number_of};
ghost use Rattle.vc_value.specs.Decimals.{fraction_of, millionths_of, signed, number_from, read_number};

/// A stored number: a whole count of millionths, of at most nine digits before the point.
#[derive(Clone, Copy, Debug, PartialEq, Eq, Hash)]
pub struct Dec {
    pub millionths: i64,
}

/// Why a text is no number.
#[derive(Clone, Copy, Debug, PartialEq, Eq)]
pub enum NumFault {
    NotANumber,
    TooManyDigits,
}

impl Dec {
    /// The number that the text writes: an optional `-`, digits, and optionally `.` and digits. At
    /// most nine digits count before the point, leading zeros apart, and at most six after it.
    pub fn read(text: &[u8]) -> Result<Dec, NumFault>
        ensures read { result ≡ read_number text.now }
        ensures small { IfOk result (λ number. unsigned_abs number.millionths < 10 ^ 15) }
    {
        let digits = unsigned_text(text);
        let whole = whole_part(digits);
        let fraction = fraction_part(digits);
        read_parts(is_negative(text), whole, fraction)
    }
}

fn is_negative(text: &[u8]) -> bool
    ensures { result ≡ is_negative text.now }
{
    match text {
        [first, ..] => *first == b'-',
        [] => false,
    }
}

fn unsigned_text(text: &[u8]) -> &[u8]
    ensures { result.now ≡ unsigned_text text.now }
{
    match text {
        [first, rest @ ..] if *first == b'-' => rest,
        _ => text,
    }
}

fn point_at(text: &[u8]) -> Option<usize>
    ensures { result ≡ position is_point text.now }
{
    text.iter().position(|byte| *byte == b'.')
}

fn whole_part(text: &[u8]) -> &[u8]
    ensures { result.now ≡ whole_part text.now }
{
    match point_at(text) {
        Some(at) => &text[..at],
        None => text,
    }
}

fn fraction_part(text: &[u8]) -> Option<&[u8]>
    ensures { option_copied result ≡ fraction_part text.now }
{
    match point_at(text) {
        Some(at) => Some(&text[at + 1..]),
        None => None,
    }
}

fn read_parts(negative: bool, whole: &[u8], fraction: Option<&[u8]>) -> Result<Dec, NumFault>
    ensures read { result ≡ number_from negative whole.now (option_copied fraction.entry) }
    ensures small { IfOk result (λ number. unsigned_abs number.millionths < 10 ^ 15) }
{
    if !(are_digits(whole) && is_fraction(fraction)) {
        return Err(NumFault::NotANumber);
    }
    if !(significant(whole).len() <= 9 && fraction_fits(fraction)) {
        return Err(NumFault::TooManyDigits);
    }
    let count = millionths_of(whole, fraction) as i64;
    Ok(Dec {
        millionths: if negative { -count } else { count },
    })
}

fn all_digits(bytes: &[u8]) -> bool
    ensures { result ≡ list_all is_ascii_digit bytes.now }
{
    bytes.iter().all(|byte| byte.is_ascii_digit())
}

fn are_digits(bytes: &[u8]) -> bool
    ensures { result ≡ are_digits bytes.now }
{
    !bytes.is_empty() && all_digits(bytes)
}

fn is_fraction(fraction: Option<&[u8]>) -> bool
    ensures { result ≡ is_fraction (option_copied fraction.entry) }
{
    match fraction {
        Some(digits) => are_digits(digits),
        None => true,
    }
}

fn fraction_fits(fraction: Option<&[u8]>) -> bool
    ensures { result ≡ fraction_fits (option_copied fraction.entry) }
{
    match fraction {
        Some(digits) => digits.len() <= 6,
        None => true,
    }
}

// The digits from the first that isn't 0 on.
fn significant(digits: &[u8]) -> &[u8]
    ensures { result.now ≡ significant digits.now }
{
    let mut rest = digits;
    while let [b'0', more @ ..] = rest {
        rest = more;
    }
    rest
}

// The millionths that the parts write.
fn millionths_of(whole: &[u8], fraction: Option<&[u8]>) -> u64
    requires whole { IsTrue (list_all is_ascii_digit whole.now) }
    requires whole_fits { length (significant whole.now) ≤ 9 }
    requires fraction { IsTrue (is_fraction (option_copied fraction)) }
    requires fraction_fits { IsTrue (fraction_fits (option_copied fraction)) }
    ensures value { result ≡ millionths_of whole.now (option_copied fraction.entry) }
    ensures small { result < 10 ^ 15 }
{
    number_of(significant(whole)) * 1_000_000 + fraction_of(fraction)
}

fn fraction_of(fraction: Option<&[u8]>) -> u64
    requires digits { IsTrue (is_fraction (option_copied fraction)) }
    requires fits { IsTrue (fraction_fits (option_copied fraction)) }
    ensures value { result ≡ fraction_of (option_copied fraction.entry) }
    ensures small { result < 10 ^ 6 }
{
    match fraction {
        Some(digits) => shifted(digits),
        None => 0,
    }
}

// The millionths that digits after the point write.
fn shifted(digits: &[u8]) -> u64
    requires digits { IsTrue (list_all is_ascii_digit digits.now) }
    requires fits { length digits.now ≤ 6 }
    ensures value { result ≡ number_of digits.now * 10 ^ (6 - length digits.now) }
    ensures small { result < 10 ^ 6 }
{
    number_of(digits) * 10u64.pow(6 - digits.len() as u32)
}

fn number_of(digits: &[u8]) -> u64
    requires digits { IsTrue (list_all is_ascii_digit digits.now) }
    requires fits { length digits.now ≤ 9 }
    ensures value { result ≡ number_of digits.now }
    ensures small { result < 10 ^ length digits.now }
{
    let mut number = 0;
    for digit in digits {
        number = number * 10 + u64::from(*digit - b'0');
    }
    number
}
