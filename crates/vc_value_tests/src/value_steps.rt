//! Two ticks are two steps.

ghost use Rattle.std.specs.Prelude.{◌≡◌, ◌<◌};

use std::marker::Brand;
use std::sync::ledger::{Blank, Ledger};
use vc_value_steps::Steps;

fn tick_twice<L: Ledger>(blank: Blank) -> Steps<L>
    requires name { blank.name ≡ L.name }
    requires parts { blank.parts ≡ L.parts }
    requires some { 0 < blank.parts }
    ensures { result ≡ 2 }
{
    let mut steps = Steps::new(blank);
    steps.tick();
    steps.tick();
    steps
}

fn run<L: Ledger>(blank: Blank)
    requires name { blank.name ≡ L.name }
    requires parts { blank.parts ≡ L.parts }
    requires some { 0 < blank.parts }
{
    let _steps: Steps<L> = tick_twice(blank);
}

#[test]
fn counts_its_ticks(_rt: HostRuntime) {
    run::<Brand>(Blank::new(1));
}
