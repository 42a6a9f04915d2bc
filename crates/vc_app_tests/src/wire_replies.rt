//! Replies about a lamp of two colours, of which a constraint allows the first alone.

use std::alloc::{AllocError, Global};
use std::test::Fail;
use vc_plan::{Atom, Clash, Culprit, Origin, Plan, Status, Step};
use vc_plan_lamp::lamp;
use vc_value::{Listed, Value, Word};
use vc_wire_replies::{Refusal, Reply, SavedRefusal, reply_text};

// Whether this is what is written of the reply.
fn writes(alloc: Global, plan: &Plan, reply: Reply, wanted: &str) -> Result<bool, AllocError> {
    let text = reply_text(alloc, plan, &reply);
    drop(reply);
    Ok(text?.is(wanted.as_bytes()))
}

fn says(alloc: Global, plan: &Plan) -> Result<bool, AllocError> {
    let blamed = Reply::Done {
        status: Status::Contradiction(Culprit::Rule(0)),
    };
    let refused = Reply::Refused {
        refusal: Refusal::NameTaken,
    };
    let hidden = Status::Contradiction(Culprit::Hidden {
        dependency: 0,
        var: 0,
    });
    let bill = Reply::BillShown {
        status: hidden,
        lines: Word::from_bytes(alloc, b"1 0010 HOUSING 1 PC\n")?,
    };
    let whom = writes(
        alloc,
        plan,
        blamed,
        "ok contradiction constraint ONE 1 at 0\n",
    )?;
    let why = writes(alloc, plan, refused, "refused 14 NameTaken\n")?;
    let what = writes(
        alloc,
        plan,
        bill,
        "status contradiction precondition ONE at 0 COL\n1 0010 HOUSING 1 PC\nend\n",
    )?;
    let closed = writes(alloc, plan, Reply::Closed, "ok closed\n")?;
    Ok(whom && why && what && closed)
}

// What is said of what is saved.
fn says_of_saved(alloc: Global, plan: &Plan) -> Result<bool, AllocError> {
    let nothing = Reply::Refused {
        refusal: Refusal::NothingSaved,
    };
    let shape = Reply::Refused {
        refusal: Refusal::SavedRefused(SavedRefusal::Shape),
    };
    let saved = writes(alloc, plan, Reply::Saved, "ok saved\n")?;
    let forgotten = writes(alloc, plan, Reply::Forgotten, "ok forgotten\n")?;
    let none = writes(alloc, plan, nothing, "refused 8 NothingSaved\n")?;
    let why = writes(alloc, plan, shape, "refused 9 SavedRefused 2\n")?;
    Ok(saved && forgotten && none && why)
}

fn numbers(alloc: Global, numbers: &[u32]) -> Result<Listed<u32>, AllocError> {
    Ok(Listed::from_vec(Vec::from_slice(alloc, numbers)?))
}

fn step(
    alloc: Global,
    conclusion: Atom,
    origin: Origin,
    premises: &[u32],
) -> Result<Step, AllocError> {
    Ok(Step {
        conclusion,
        origin,
        premises: numbers(alloc, premises)?,
    })
}

// The constraint excludes B, so A is left.
fn a_is_left(alloc: Global) -> Result<Listed<Step>, AllocError> {
    let mut steps = Listed::new(alloc);
    steps.push(step(alloc, Atom::Out(0, 1), Origin::Rule(0), &[0])?)?;
    steps.push(step(alloc, Atom::Is(0, Value::Text(0)), Origin::Rule(1), &[0, 1])?)?;
    Ok(steps)
}

// The user's B contradicts the constraint.
fn b_is_set(alloc: Global) -> Result<Clash, AllocError> {
    let mut steps = Listed::new(alloc);
    steps.push(step(alloc, Atom::Is(0, Value::Text(1)), Origin::User, &[])?)?;
    Ok(Clash {
        steps,
        culprit: Culprit::Rule(0),
        premises: numbers(alloc, &[1])?,
    })
}

fn tells_chains(alloc: Global, plan: &Plan) -> Result<bool, AllocError> {
    let chain = writes(
        alloc,
        plan,
        Reply::Chain {
            steps: a_is_left(alloc)?,
        },
        "chain\n1 out 0 COL 'B' by constraint ONE 1 at 0\n2 is 0 COL 'A' by last from 1\nend\n",
    )?;
    let whole = writes(
        alloc,
        plan,
        Reply::Whole {
            steps: a_is_left(alloc)?,
        },
        "whole\n1 out 0 COL 'B' by constraint ONE 1 at 0\n2 is 0 COL 'A' by last from 1\nend\n",
    )?;
    Ok(chain && whole)
}

fn tells_contradictions(alloc: Global, plan: &Plan) -> Result<bool, AllocError> {
    let clashed = writes(
        alloc,
        plan,
        Reply::Clashed {
            clash: b_is_set(alloc)?,
        },
        "chain\n1 is 0 COL 'B' by user\nclash by constraint ONE 1 at 0 from 1\nend\n",
    )?;
    let hidden = writes(
        alloc,
        plan,
        Reply::Hidden {
            culprit: Culprit::Hidden {
                dependency: 0,
                var: 0,
            },
        },
        "precondition ONE at 0 COL\n",
    )?;
    Ok(clashed && hidden)
}

#[test]
fn chains_are_written(rt: HostRuntime) -> Result<(), Fail> {
    let plan = lamp(rt.alloc())?;
    let chains = tells_chains(rt.alloc(), &plan);
    let contradictions = tells_contradictions(rt.alloc(), &plan);
    drop(plan);
    assert!(rt; chains? && contradictions?);
    Ok(())
}

#[test]
fn replies_are_written(rt: HostRuntime) -> Result<(), Fail> {
    let plan = lamp(rt.alloc())?;
    let said = says(rt.alloc(), &plan);
    let saved = says_of_saved(rt.alloc(), &plan);
    drop(plan);
    assert!(rt; said? && saved?);
    Ok(())
}
