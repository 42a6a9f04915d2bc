//! Chain files of the lamp, read and verified.

ghost use Rattle.std.specs.Prelude.{◌≡◌};
ghost use Rattle.vc_plan_lamp.specs.Lamp.{lamp};

use std::alloc::{AllocError, Global};
use std::test::Fail;
use vc_check_chains::{Verdict, verify_chain};
use vc_plan::Plan;
use vc_plan_lamp::lamp;
use vc_wire_chains::{ChainFault, ChainFile, read_chain};

// What is said of a text: which line isn't allowed, or what the checker says.
#[derive(Clone, Copy, Debug, PartialEq, Eq)]
enum Said {
    Line(u64),
    Of(Verdict),
    Nothing,
}

const ROWS: [(&str, Said); 20] = [
    (
        "chain\n1 out 0 COL 'B' by constraint ONE 1 at 0\n2 is 0 COL 'A' by last from 1\nend\n",
        Said::Of(Verdict::Accepted),
    ),
    (
        "whole\n1 out 0 COL 'B' by constraint ONE 1 at 0\n2 is 0 COL 'A' by last from 1\nend\n",
        Said::Of(Verdict::Accepted),
    ),
    (
        "whole\n1 out 0 COL 'B' by constraint ONE 1 at 0\nend\n",
        Said::Of(Verdict::MoreFollows),
    ),
    (
        "Chain\n1 OUT 0 col 'B' By constraint one 1 AT 0\nEND",
        Said::Of(Verdict::Accepted),
    ),
    (
        "chain\n1 is 0 COL 'A' by last\nend\n",
        Said::Of(Verdict::BadStep(1)),
    ),
    (
        "chain\n1 is 0 COL 'A' by user\n2 is 0 COL 'A' by user\nend\n",
        Said::Of(Verdict::BadStep(2)),
    ),
    (
        "chain\n1 out 0 COL 'B' by constraint ONE 1 at 0\n2 is 0 COL 'B' by user\n\
         clash by constraint ONE 1 at 0 from 1 2\nend\n",
        Said::Of(Verdict::Accepted),
    ),
    (
        "chain\n1 out 0 COL 'B' by constraint ONE 1 at 0\n2 is 0 COL 'B' by user\n\
         clash by constraint ONE 1 at 0 from 1\nend\n",
        Said::Of(Verdict::BadClash),
    ),
    ("", Said::Line(1)),
    ("chain\n", Said::Line(2)),
    ("chain\r\nend\n", Said::Line(1)),
    ("chain\nend\nend\n", Said::Line(3)),
    ("chain\n2 is 0 COL 'A' by user\nend\n", Said::Line(2)),
    ("chain\n1 is 0 COL A by user\nend\n", Said::Line(2)),
    ("chain\n1 is 0 COL 'C' by user\nend\n", Said::Line(2)),
    ("chain\n1 is 0 COL 'A' by user \nend\n", Said::Line(2)),
    ("chain\n1 is 0 COL 'A' by user from\nend\n", Said::Line(2)),
    ("chain\n1 out 0 COL 'B' by last\nend\n", Said::Line(2)),
    (
        "chain\n1 out 0 COL 'B' by constraint ONE 2 at 0\nend\n",
        Said::Line(2),
    ),
    (
        "whole\nclash by constraint ONE 1 at 0\nend\n",
        Said::Line(2),
    ),
];

fn said_of(alloc: Global, plan: &Plan, file: ChainFile) -> Said
    requires { plan.now ≡ lamp }
{
    match verify_chain(alloc, plan, file) {
        Ok(verdict) => Said::Of(verdict),
        Err(_) => Said::Nothing,
    }
}

fn said_by(alloc: Global, plan: &Plan, text: &[u8]) -> Said
    requires { plan.now ≡ lamp }
{
    match read_chain(alloc, plan, text) {
        Ok(file) => said_of(alloc, plan, file),
        Err(ChainFault::NotAChain { line }) => Said::Line(line),
        Err(ChainFault::OutOfMemory) => Said::Nothing,
    }
}

fn said_of_text(alloc: Global, text: &[u8]) -> Result<Said, AllocError> {
    let plan = lamp(alloc)?;
    let said = said_by(alloc, &plan, text);
    drop(plan);
    Ok(said)
}

#[test]
fn chain_files_are_read_and_verified(rt: HostRuntime) -> Result<(), Fail> {
    for (text, wanted) in ROWS.iter() {
        let told = said_of_text(rt.alloc(), text.as_bytes())?;
        assert_eq!(rt; told, *wanted);
    }
    Ok(())
}
