//! What is chosen of a lamp, saved and read.

ghost use Rattle.std.specs.Prelude.{◌≡◌};
ghost use Rattle.vc_plan_lamp.specs.Lamp.{lamp};

use std::alloc::Global;
use std::test::Fail;
use vc_plan::Plan;
use vc_plan_lamp::lamp;
use vc_plan_users::UserValues;
use vc_store::laws::{read_may_be_chosen, saved_is_read};
use vc_store::{SavedFault, read_saved, save_text};
use vc_value::Value;

const SECOND: &str =
    r#"{"form":1,"model":"LAMP","values":[{"characteristic":"COL","instance":0,"value":"B"}],"version":1}"#;

// The second colour is chosen, saved, and read again.
fn is_saved_and_read(alloc: Global, plan: &Plan) -> Result<bool, SavedFault>
    requires { plan.now ≡ lamp }
{
    let mut users = UserValues::new(alloc, plan)?;
    users.put(0, Some(Value::Text(1)));
    let text = save_text(alloc, plan, &users)?;
    let again = read_saved(alloc, plan, text.bytes())?;
    Ok(text.is(SECOND.as_bytes()) && again.value(0) == Some(Value::Text(1)))
}

// Why a text gives nothing, if it does.
fn fault(alloc: Global, plan: &Plan, text: &str) -> Option<SavedFault>
    requires { plan.now ≡ lamp }
{
    match read_saved(alloc, plan, text.as_bytes()) {
        Ok(_) => None,
        Err(fault) => Some(fault),
    }
}

fn is_no_json(alloc: Global, plan: &Plan, text: &[u8]) -> bool
    requires { plan.now ≡ lamp }
{
    let read = read_saved(alloc, plan, text);
    let refused = matches!(&read, Err(SavedFault::NotJson));
    drop(read);
    refused
}

// Whether each front of a text is no JSON.
fn fronts_are_refused(alloc: Global, plan: &Plan, text: &[u8]) -> bool
    requires { plan.now ≡ lamp }
{
    for length in 0..text.len() {
        if !is_no_json(alloc, plan, &text[..length]) {
            return false;
        }
    }
    true
}

#[test]
fn refuses_a_text_that_is_cut(rt: HostRuntime) -> Result<(), Fail> {
    let plan = lamp(rt.alloc())?;
    let refused = fronts_are_refused(rt.alloc(), &plan, SECOND.as_bytes());
    drop(plan);
    assert!(rt; refused);
    Ok(())
}

#[test]
fn reads_what_is_saved(rt: HostRuntime) -> Result<(), Fail> {
    saved_is_read();
    read_may_be_chosen();
    let plan = lamp(rt.alloc())?;
    let read = is_saved_and_read(rt.alloc(), &plan);
    drop(plan);
    assert_eq!(rt; read, Ok(true));
    Ok(())
}

#[test]
fn tells_the_first_fault(rt: HostRuntime) -> Result<(), Fail> {
    let plan = lamp(rt.alloc())?;
    let faults = [
        fault(
            rt.alloc(),
            &plan,
            r#"{"form":1,"model":"LAMP","values":[],"version":1"#,
        ),
        fault(
            rt.alloc(),
            &plan,
            r#"{"form":1,"model":"LAMP","values":[]}"#,
        ),
        fault(
            rt.alloc(),
            &plan,
            r#"{"form":1,"model":"LAMP","values":[],"version":2}"#,
        ),
        fault(
            rt.alloc(),
            &plan,
            r#"{"form":1,"model":"LAMP","values":[{"characteristic":"COL","instance":0,"value":"C"}],"version":1}"#,
        ),
        fault(
            rt.alloc(),
            &plan,
            r#"{"version":1,"values":[],"model":"LAMP","form":1}"#,
        ),
    ];
    drop(plan);
    assert_eq!(rt;
        faults,
        [
            Some(SavedFault::NotJson),
            Some(SavedFault::Shape),
            Some(SavedFault::OtherModel),
            Some(SavedFault::UnknownName),
            None,
        ]
    );
    Ok(())
}

#[test]
fn tells_names_that_the_model_lacks(rt: HostRuntime) -> Result<(), Fail> {
    let plan = lamp(rt.alloc())?;
    let faults = [
        fault(
            rt.alloc(),
            &plan,
            r#"{"form":1,"model":"LAMPX","values":[],"version":1}"#,
        ),
        fault(
            rt.alloc(),
            &plan,
            r#"{"form":1,"model":"LAMP","values":[{"characteristic":"COL","instance":1,"value":"B"}],"version":1}"#,
        ),
        fault(
            rt.alloc(),
            &plan,
            r#"{"form":1,"model":"LAMP","values":[{"characteristic":"COLOUR","instance":0,"value":"B"}],"version":1}"#,
        ),
    ];
    drop(plan);
    assert_eq!(rt;
        faults,
        [
            Some(SavedFault::OtherModel),
            Some(SavedFault::UnknownName),
            Some(SavedFault::UnknownName),
        ]
    );
    Ok(())
}

#[test]
fn refuses_a_variable_that_stands_twice(rt: HostRuntime) -> Result<(), Fail> {
    let plan = lamp(rt.alloc())?;
    let found = fault(
        rt.alloc(),
        &plan,
        r#"{"form":1,"model":"LAMP","values":[{"characteristic":"COL","instance":0,"value":"B"},
        {"characteristic":"COL","instance":0,"value":"B"}],"version":1}"#,
    );
    drop(plan);
    assert_eq!(rt; found, Some(SavedFault::Shape));
    Ok(())
}
