//! Computed numbers, with the four operations, rounding and the functions.

ghost use Rattle.std.specs.Prelude.{◌≡◌, pos, ◌+◌, ◌-◌, ◌*◌, ◌^◌, ◌<◌, ◌≤◌, ◌+ℤ◌, ◌-ℤ◌, ◌*ℤ◌, unsigned_abs};
ghost use Rattle.std.specs.Prelude.{option_map, IfSome};
ghost use Rattle.vc_value.specs.Millionths.{one, product, quotient, rounded, sign_of, trunc_of, floor_of};
ghost use Rattle.vc_value.specs.Millionths.{ceil_of, frac_of, stored};

use crate::rounding;
use vc_value::Dec;

/// A computed number: a whole count of millionths.
#[derive(Clone, Copy, Debug, PartialEq, Eq, Hash)]
pub struct Wide {
    pub millionths: i128,
}

impl From<Dec> for Wide {
    ghost from_gives = { λ number wide. wide.millionths ≡ number.millionths };

    fn from(number: Dec) -> Wide {
        Wide {
            millionths: number.millionths as i128,
        }
    }
}

impl Wide {
    /// The sum. The caller sees that it is at most 10^36 in absolute value, in millionths.
    pub fn plus(self, other: Wide) -> Wide
        requires { unsigned_abs (self.millionths +ℤ other.millionths) ≤ 10 ^ 36 }
        ensures { result.millionths ≡ self.millionths +ℤ other.millionths }
    {
        Wide {
            millionths: self.millionths + other.millionths,
        }
    }

    /// The difference. The caller sees that it is at most 10^36 in absolute value, in millionths.
    pub fn minus(self, other: Wide) -> Wide
        requires { unsigned_abs (self.millionths -ℤ other.millionths) ≤ 10 ^ 36 }
        ensures { result.millionths ≡ self.millionths -ℤ other.millionths }
    {
        Wide {
            millionths: self.millionths - other.millionths,
        }
    }

    /// The product, a half rounded away from zero. The caller sees that the product of the two
    /// counts is at most 10^36 in absolute value.
    pub fn times(self, other: Wide) -> Wide
        requires { unsigned_abs (self.millionths *ℤ other.millionths) ≤ 10 ^ 36 }
        ensures value { result.millionths ≡ product self.millionths other.millionths }
        ensures within { unsigned_abs result.millionths ≤ 10 ^ 30 }
    {
        Wide {
            millionths: rounding::divided(self.millionths * other.millionths, rounding::ONE),
        }
    }

    /// The quotient, a half rounded away from zero; none by zero. The caller sees that 10^6 times
    /// this count is at most 10^36 in absolute value.
    pub fn over(self, other: Wide) -> Option<Wide>
        requires { unsigned_abs self.millionths * one ≤ 10 ^ 36 }
        ensures value { option_map (λ wide. wide.millionths) result ≡ quotient self.millionths other.millionths }
        ensures within { IfSome result (λ wide. unsigned_abs wide.millionths ≤ 10 ^ 36) }
    {
        if other.millionths == 0 {
            return None;
        }
        let scaled = self.millionths * rounding::ONE as i128;
        let turned = rounding::turned_by(other.millionths, scaled);
        Some(Wide {
            millionths: rounding::divided(turned, other.millionths.unsigned_abs()),
        })
    }

    /// The number rounded to so many decimals, a half away from zero. The caller sees that there
    /// are at most 6 and that the count is at most 10^36 - 10^6 in absolute value.
    pub fn rounded(self, decimals: u8) -> Wide
        requires decimals { decimals ≤ 6 }
        requires fits { unsigned_abs self.millionths ≤ 10 ^ 36 - 10 ^ 6 }
        ensures value { result.millionths ≡ rounded decimals self.millionths }
        ensures within { unsigned_abs result.millionths ≤ 10 ^ 36 }
    {
        let unit = rounding::unit_of(decimals);
        let size = rounding::nearest(self.millionths.unsigned_abs(), unit) * unit;
        Wide {
            millionths: rounding::with_sign(self.millionths, size),
        }
    }

    /// The absolute value. The caller sees that the count is at most 10^36 - 10^6 in absolute value.
    pub fn abs(self) -> Wide
        requires { unsigned_abs self.millionths ≤ 10 ^ 36 - 10 ^ 6 }
        ensures { result.millionths ≡ pos (unsigned_abs self.millionths) }
    {
        Wide {
            millionths: self.millionths.abs(),
        }
    }

    /// -1, 0 or 1, as the number is below, at or above zero. The caller sees that the count is at
    /// most 10^36 - 10^6 in absolute value.
    pub fn sign(self) -> Wide
        requires { unsigned_abs self.millionths ≤ 10 ^ 36 - 10 ^ 6 }
        ensures value { result.millionths ≡ sign_of self.millionths }
        ensures within { unsigned_abs result.millionths ≤ one }
    {
        Wide {
            millionths: self.millionths.signum() * rounding::ONE as i128,
        }
    }

    /// The whole number next to this one towards zero. The caller sees that the count is at most
    /// 10^36 - 10^6 in absolute value.
    pub fn trunc(self) -> Wide
        requires { unsigned_abs self.millionths ≤ 10 ^ 36 - 10 ^ 6 }
        ensures value { result.millionths ≡ trunc_of self.millionths }
        ensures within { unsigned_abs result.millionths ≤ unsigned_abs self.millionths }
    {
        let size = rounding::whole_below(self.millionths.unsigned_abs());
        Wide {
            millionths: rounding::with_sign(self.millionths, size),
        }
    }

    /// The greatest whole number that isn't above this one. The caller sees that the count is at
    /// most 10^36 - 10^6 in absolute value.
    pub fn floor(self) -> Wide
        requires { unsigned_abs self.millionths ≤ 10 ^ 36 - 10 ^ 6 }
        ensures value { result.millionths ≡ floor_of self.millionths }
        ensures within { unsigned_abs result.millionths ≤ 10 ^ 36 }
    {
        let size = self.millionths.unsigned_abs();
        let whole = if self.millionths < 0 {
            rounding::whole_above(size)
        } else {
            rounding::whole_below(size)
        };
        Wide {
            millionths: rounding::with_sign(self.millionths, whole),
        }
    }

    /// The least whole number that isn't below this one. The caller sees that the count is at most
    /// 10^36 - 10^6 in absolute value.
    pub fn ceil(self) -> Wide
        requires { unsigned_abs self.millionths ≤ 10 ^ 36 - 10 ^ 6 }
        ensures value { result.millionths ≡ ceil_of self.millionths }
        ensures within { unsigned_abs result.millionths ≤ 10 ^ 36 }
    {
        let size = self.millionths.unsigned_abs();
        let whole = if self.millionths < 0 {
            rounding::whole_below(size)
        } else {
            rounding::whole_above(size)
        };
        Wide {
            millionths: rounding::with_sign(self.millionths, whole),
        }
    }

    /// What the number has beyond the whole number next to it towards zero, with its sign. The
    /// caller sees that the count is at most 10^36 - 10^6 in absolute value.
    pub fn frac(self) -> Wide
        requires { unsigned_abs self.millionths ≤ 10 ^ 36 - 10 ^ 6 }
        ensures value { result.millionths ≡ frac_of self.millionths }
        ensures within { unsigned_abs result.millionths < one }
    {
        Wide {
            millionths: self.millionths - self.trunc().millionths,
        }
    }

    /// The stored number of the same value: none exactly where the count reaches 10^15 in absolute
    /// value.
    pub fn to_dec(self) -> Option<Dec>
        ensures { result ≡ stored self.millionths }
    {
        if self.millionths.unsigned_abs() < 1_000_000_000_000_000 {
            Some(Dec {
                millionths: self.millionths as i64,
            })
        } else {
            None
        }
    }
}
