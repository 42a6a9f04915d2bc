//! Numbers that are read, and grains that are cut and searched.

ghost use Rattle.std.specs.Prelude.{◌≡◌};
ghost use Rattle.vc_value.specs.Grains.{interval};

use std::test::Fail;
use vc_value::{Dec, Grain, GrainList, NumFault};

#[test]
fn reads_numbers(rt: HostRuntime) {
    for (text, want) in [
        ("0", Ok(0)),
        ("-0", Ok(0)),
        ("1.50", Ok(1_500_000)),
        ("0007.000001", Ok(7_000_001)),
        ("-999999999.999999", Ok(-999_999_999_999_999)),
        ("1000000000", Err(NumFault::TooManyDigits)),
        ("1.0000000", Err(NumFault::TooManyDigits)),
        ("", Err(NumFault::NotANumber)),
        ("-", Err(NumFault::NotANumber)),
        ("1.", Err(NumFault::NotANumber)),
        (".1", Err(NumFault::NotANumber)),
        ("+1", Err(NumFault::NotANumber)),
        (" 1", Err(NumFault::NotANumber)),
        ("1e3", Err(NumFault::NotANumber)),
        ("1.2.3", Err(NumFault::NotANumber)),
    ] {
        let read = Dec::read(text.as_bytes()).map(|number| number.millionths);
        assert_eq!(rt; read, want, "{text}");
    }
}

#[test]
fn prints_numbers(rt: HostRuntime) -> Result<(), Fail> {
    for (millionths, want) in [
        (0, "0"),
        (7_000_001, "7.000001"),
        (-1_500_000, "-1.5"),
        (-1, "-0.000001"),
        (100_000_000, "100"),
        (-999_999_999_999_999, "-999999999.999999"),
    ] {
        let text = Dec { millionths }.print(rt.alloc())?;
        assert!(rt; text.is(want.as_bytes()), "{want}");
    }
    Ok(())
}

fn grain(low: i64, high: i64) -> Grain
    ensures { result ≡ interval low high }
{
    Grain {
        low: Dec { millionths: low },
        high: Dec { millionths: high },
    }
}

#[test]
fn cuts_grains(rt: HostRuntime) -> Result<(), Fail> {
    let mut grains = GrainList::new(rt.alloc());
    for (low, high) in [
        (300_000, 1_300_000),
        (1_600_000, 11_600_000),
        (11_700_000, 21_700_000),
        (21_800_000, 21_900_000),
    ] {
        let last = grain(low, high);
        if low <= high && grains.ends_below(last.low) && !grains.is_full() {
            grains.add(last)?;
        }
    }
    for millionths in [11_500_000, 9_914_062] {
        if grains.count() < 100 {
            grains.cut(rt.alloc(), 1, Dec { millionths })?;
        }
    }
    let want = [
        (300_000, 1_300_000),
        (1_600_000, 9_900_000),
        (10_000_000, 11_400_000),
        (11_500_000, 11_500_000),
        (11_600_000, 11_600_000),
        (11_700_000, 21_700_000),
        (21_800_000, 21_900_000),
    ];
    assert_eq!(rt; grains.count(), 7);
    for (number, (low, high)) in want.iter().enumerate() {
        let found = grains.find(Dec { millionths: *low });
        assert_eq!(rt; found, Some(number as u32));
        if (number as u32) < grains.count() {
            assert_eq!(rt; grains.grain(number as u32), grain(*low, *high));
        }
    }
    assert_eq!(rt;
        grains.find(Dec {
            millionths: 9_950_000
        }),
        None
    );
    Ok(())
}
