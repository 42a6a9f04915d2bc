//! Rounding of sizes, and sizes with a sign.

ghost use Rattle.std.specs.Prelude.{◌≡◌, ◌+◌, ◌-◌, ◌*◌, ◌^◌, ◌<◌, ◌≤◌, unsigned_abs};
ghost use Rattle.vc_value.specs.Grains.{unit_of};
ghost use Rattle.vc_value.specs.Millionths.{nearest, with_sign, divided, one, turned_by, whole_below, whole_above};

/// One, in millionths.
pub const ONE: u128 = 1_000_000;

/// The quotient of two sizes, a half rounded up.
pub fn nearest(size: u128, by: u128) -> u128
    requires positive { 0 < by }
    requires fits { size ≤ 10 ^ 36 }
    ensures value { result ≡ nearest size by }
    ensures within { result * by ≤ size + by }
    ensures small { result ≤ size }
{
    let quotient = size / by;
    let rest = size % by;
    if rest < by - rest {
        quotient
    } else {
        quotient + 1
    }
}

/// The size with the sign of the count.
pub fn with_sign(count: i128, size: u128) -> i128
    requires { size ≤ 10 ^ 36 }
    ensures value { result ≡ with_sign count size }
    ensures size { unsigned_abs result ≡ size }
{
    if count < 0 {
        -(size as i128)
    } else {
        size as i128
    }
}

/// The count, with its sign turned where the other one is negative.
pub fn turned_by(other: i128, count: i128) -> i128
    requires { unsigned_abs count ≤ 10 ^ 36 }
    ensures value { result ≡ turned_by other count }
    ensures size { unsigned_abs result ≡ unsigned_abs count }
{
    if other < 0 { -count } else { count }
}

/// The count divided by a size, a half rounded away from zero.
pub fn divided(count: i128, by: u128) -> i128
    requires positive { 0 < by }
    requires fits { unsigned_abs count ≤ 10 ^ 36 }
    ensures value { result ≡ divided count by }
    ensures within { unsigned_abs result ≤ unsigned_abs count }
{
    with_sign(count, nearest(count.unsigned_abs(), by))
}

/// The last of so many decimals, in millionths.
pub fn unit_of(decimals: u8) -> u128
    requires { decimals ≤ 6 }
    ensures value { result ≡ unit_of decimals }
    ensures positive { 0 < result }
    ensures within { result ≤ one }
{
    10u128.pow(6 - decimals as u32)
}

/// The whole part of a size.
pub fn whole_below(size: u128) -> u128
    ensures value { result ≡ whole_below size }
    ensures below { result ≤ size }
{
    size - size % ONE
}

/// The whole part of the next whole number that isn't below the size.
pub fn whole_above(size: u128) -> u128
    requires { size ≤ 10 ^ 36 }
    ensures value { result ≡ whole_above size }
    ensures near { result ≤ size + one }
{
    let whole = whole_below(size);
    if size % ONE == 0 { whole } else { whole + ONE }
}
