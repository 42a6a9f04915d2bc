//! Each public call, at both sides of what turns it. Counts are millionths.

ghost use Rattle.std.specs.Prelude.{◌≡◌};

use std::test::Fail;
use vc_value::Dec;
use vc_value_wide::Wide;

fn wide(millionths: i128) -> Wide
    ensures { result.millionths ≡ millionths }
{
    Wide { millionths }
}

#[test]
fn adds_and_subtracts(rt: HostRuntime) {
    let sum = wide(68_841_579_758_347_536_947_255_763_467_735_262).plus(wide(914_093_536));
    assert_eq!(rt;
        sum.millionths,
        68_841_579_758_347_536_947_255_764_381_828_798
    );
    assert_eq!(rt; wide(-2).plus(wide(1)).millionths, -1);
    let greatest = wide(999_999_999_999_999_999_999_999_999_999_999_999).plus(wide(1));
    assert_eq!(rt;
        greatest.millionths,
        1_000_000_000_000_000_000_000_000_000_000_000_000
    );
    assert_eq!(rt; wide(1).minus(wide(3)).millionths, -2);
    assert_eq!(rt; wide(-1).minus(wide(-3)).millionths, 2);
}

#[test]
fn multiplies(rt: HostRuntime) {
    assert_eq!(rt;
        wide(1_500_000).times(wide(-2_000_000)).millionths,
        -3_000_000
    );
    assert_eq!(rt; wide(1).times(wide(499_999)).millionths, 0);
    assert_eq!(rt; wide(1).times(wide(500_000)).millionths, 1);
    assert_eq!(rt; wide(-1).times(wide(500_000)).millionths, -1);
    assert_eq!(rt; wide(-1).times(wide(-500_000)).millionths, 1);
    let greatest = wide(1_000_000_000_000_000_000).times(wide(-1_000_000_000_000_000_000));
    assert_eq!(rt;
        greatest.millionths,
        -1_000_000_000_000_000_000_000_000_000_000
    );
}

#[test]
fn divides(rt: HostRuntime) -> Result<(), Fail> {
    assert_eq!(rt; wide(0).over(wide(0)), None);
    assert_eq!(rt;
        wide(1_000_000)
            .over(wide(3_000_000))
            .ok_or("none")?
            .millionths,
        333_333
    );
    assert_eq!(rt;
        wide(2_000_000)
            .over(wide(-3_000_000))
            .ok_or("none")?
            .millionths,
        -666_667
    );
    assert_eq!(rt;
        wide(-1).over(wide(2_000_000)).ok_or("none")?.millionths,
        -1
    );
    assert_eq!(rt; wide(-1).over(wide(2_000_001)).ok_or("none")?.millionths, 0);
    let least = wide(1).over(wide(-170_141_183_460_469_231_731_687_303_715_884_105_728));
    assert_eq!(rt; least.ok_or("none")?.millionths, 0);
    let greatest = wide(1_000_000_000_000_000_000_000_000_000_000).over(wide(-1));
    assert_eq!(rt;
        greatest.ok_or("none")?.millionths,
        -1_000_000_000_000_000_000_000_000_000_000_000_000
    );
    Ok(())
}

#[test]
fn rounds(rt: HostRuntime) {
    assert_eq!(rt; wide(1_449_999).rounded(1).millionths, 1_400_000);
    assert_eq!(rt; wide(1_450_000).rounded(1).millionths, 1_500_000);
    assert_eq!(rt; wide(-1_450_000).rounded(1).millionths, -1_500_000);
    assert_eq!(rt; wide(-499_999).rounded(0).millionths, 0);
    assert_eq!(rt; wide(-500_000).rounded(0).millionths, -1_000_000);
    assert_eq!(rt; wide(542_655_334).rounded(5).millionths, 542_655_330);
    assert_eq!(rt; wide(542_655_334).rounded(6).millionths, 542_655_334);
}

#[test]
fn takes_sizes_and_signs(rt: HostRuntime) {
    assert_eq!(rt; wide(-972_155_503).abs().millionths, 972_155_503);
    assert_eq!(rt; wide(7).abs().millionths, 7);
    assert_eq!(rt; wide(-7).sign().millionths, -1_000_000);
    assert_eq!(rt; wide(0).sign().millionths, 0);
    assert_eq!(rt; wide(7).sign().millionths, 1_000_000);
}

#[test]
fn takes_whole_numbers(rt: HostRuntime) {
    assert_eq!(rt; wide(-803_102_602).trunc().millionths, -803_000_000);
    assert_eq!(rt; wide(803_102_602).trunc().millionths, 803_000_000);
    assert_eq!(rt; wide(-803_102_602).floor().millionths, -804_000_000);
    assert_eq!(rt; wide(-803_000_000).floor().millionths, -803_000_000);
    assert_eq!(rt; wide(803_102_602).floor().millionths, 803_000_000);
    assert_eq!(rt; wide(-803_102_602).ceil().millionths, -803_000_000);
    assert_eq!(rt; wide(803_000_001).ceil().millionths, 804_000_000);
    assert_eq!(rt; wide(803_000_000).ceil().millionths, 803_000_000);
    assert_eq!(rt; wide(-803_102_602).frac().millionths, -102_602);
    assert_eq!(rt; wide(803_102_602).frac().millionths, 102_602);
}

#[test]
fn stores_numbers(rt: HostRuntime) -> Result<(), Fail> {
    let greatest = Dec {
        millionths: 999_999_999_999_999,
    };
    assert_eq!(rt;
        Wide::from(greatest).to_dec().ok_or("none")?.millionths,
        999_999_999_999_999
    );
    assert_eq!(rt; wide(1_000_000_000_000_000).to_dec(), None);
    assert_eq!(rt;
        wide(-999_999_999_999_999)
            .to_dec()
            .ok_or("none")?
            .millionths,
        -999_999_999_999_999
    );
    assert_eq!(rt; wide(-1_000_000_000_000_000).to_dec(), None);
    Ok(())
}
