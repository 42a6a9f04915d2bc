//! The top call over files and a sink in memory.

use std::alloc::Global;
use std::test::Fail;
use vc_app::desk;
use vc_outside::{MemKeeper, MemShelf, MemSink};
use vc_outside_links::MemDoor;

pub(crate) const PUMP: &str = "MODEL PUMP VERSION 1
CHAR SIZE 1 RESTRICTABLE REQUIRED
VALUE 'S'
VALUE 'M'
VALUE 'L'
CHAR MOTOR 2 RESTRICTABLE
VALUE 'E1'
VALUE 'E2'
VALUE 'E3'
NUM FLOW 1 RESTRICTABLE UNIT m3/h
VALUE 0 .. 100
CLASS PUMPS
HAS SIZE
HAS MOTOR
HAS FLOW
TABLE SM FILE sm.csv
COLUMN SIZE
COLUMN MOTOR
CONSTRAINT C_SM
OBJECTS: ?P IS_A (300)PUMPS.
RESTRICTIONS: TABLE SM (SIZE = ?P.SIZE, MOTOR = ?P.MOTOR).
INFERENCES: ?P.SIZE, ?P.MOTOR.
END
SELECTION S_L
SIZE = 'L'
END
NET MAIN
USES C_SM
OBJECT PUMP CLASS PUMPS
USES MAIN
LINE 0010 HOUSING PC : 1
LINE 0020 SEAL PC : 2
USES S_L
OPERATION 0010 ASSY MIN : 15 + FLOW / 2
ROOT PUMP
";

pub(crate) const ROWS_OF_SM: &str = "SIZE,MOTOR
S,E1
M,E1
M,E2
L,E3
";

/// How a run ended: its status, and what was written.
#[derive(Drop)]
struct Ended {
    status: u8,
    written: Vec<u8>,
}

// The status of words that ask for no links.
fn status_of(
    alloc: Global,
    words: &[String],
    shelf: &mut MemShelf,
    keeper: &mut MemKeeper,
    sink: &mut MemSink,
) -> Result<u8, Fail> {
    let mut door = MemDoor::new(alloc, Vec::new(alloc))?;
    let status = desk(alloc, words, shelf, keeper, &mut door, sink);
    drop(door);
    Ok(status)
}

/// Runs a script on the pump, the shelf's and the sink's calls of these numbers failing (0 is none).
fn run(alloc: Global, script: &[u8], shelf_fails: u64, sink_fails: u64) -> Result<Ended, Fail> {
    let mut shelf = MemShelf::new(alloc);
    shelf.add(alloc, "pump", PUMP.as_bytes())?;
    shelf.add(alloc, "sm.csv", ROWS_OF_SM.as_bytes())?;
    shelf.add(alloc, "script", script)?;
    shelf.fail_at(shelf_fails)?;
    run_with(alloc, &["run", "pump", "script"], &mut shelf, sink_fails)
}

/// Runs a script on the pump, the keeper's call of this number failing (0 is none).
fn run_saving(alloc: Global, script: &[u8], keeper_fails: u64) -> Result<Ended, Fail> {
    let mut shelf = MemShelf::new(alloc);
    shelf.add(alloc, "pump", PUMP.as_bytes())?;
    shelf.add(alloc, "sm.csv", ROWS_OF_SM.as_bytes())?;
    shelf.add(alloc, "script", script)?;
    let mut keeper = MemKeeper::new(alloc);
    keeper.fail_at(keeper_fails)?;
    let names = ["run", "pump", "script", "keep"];
    run_keeping(alloc, &names, &mut shelf, &mut keeper, 0)
}

fn run_with(
    alloc: Global,
    names: &[&str],
    shelf: &mut MemShelf,
    sink_fails: u64,
) -> Result<Ended, Fail> {
    let mut keeper = MemKeeper::new(alloc);
    run_keeping(alloc, names, shelf, &mut keeper, sink_fails)
}

fn run_keeping(
    alloc: Global,
    names: &[&str],
    shelf: &mut MemShelf,
    keeper: &mut MemKeeper,
    sink_fails: u64,
) -> Result<Ended, Fail> {
    let mut words = Vec::new(alloc);
    for name in names {
        words.push(String::from_str(alloc, name)?)?;
    }
    let mut sink = MemSink::with_room(alloc, 4096)?;
    sink.fail_at(sink_fails)?;
    let status = status_of(alloc, words.as_slice(), shelf, keeper, &mut sink)?;
    let written = Vec::from_slice(alloc, sink.written())?;
    Ok(Ended { status, written })
}

/// Scripts for the pump, and what is written for each.
const ROWS: [(&str, &str); 11] = [
    ("", ""),
    (
        "open a\nset a 0 SIZE L\nshow a\nretract a 0 SIZE\nshow a\n",
        "ok open\nok complete\nstatus complete\ninstance 0 PUMP\nSIZE = 'L' user\nMOTOR = 'E3' inferred\n\
            FLOW ? 0 .. 100\nend\nok open\nstatus open\ninstance 0 PUMP\nSIZE ? 'S' 'M' 'L' required\n\
            MOTOR ? 'E1' 'E2' 'E3'\nFLOW ? 0 .. 100\nend\n",
    ),
    (
        "open a\nset a 0 MOTOR E3\nset a 0 SIZE S\nshow a\n",
        "ok open\nok complete\nok contradiction constraint C_SM 1 at 0\n\
            status contradiction constraint C_SM 1 at 0\nuser 0 SIZE = 'S'\nuser 0 MOTOR = 'E3'\nend\n",
    ),
    (
        "open a\nset a 0 SIZE L\nset a 0 MOTOR E3\nretract a 0 SIZE\nshow a\n",
        "ok open\nok complete\nok complete\nok complete\nstatus complete\ninstance 0 PUMP\n\
            SIZE = 'L' inferred\nMOTOR = 'E3' user\nFLOW ? 0 .. 100\nend\n",
    ),
    (
        "open a\nset a 0 FLOW 100.0\nset a 0 FLOW 100.1\nset a 0 FLOW 5.05\nshow a\n",
        "ok open\nok open\nrefused 5 NotInList\nrefused 5 NotInList\nstatus open\ninstance 0 PUMP\n\
            SIZE ? 'S' 'M' 'L' required\nMOTOR ? 'E1' 'E2' 'E3'\nFLOW = 100 user\nend\n",
    ),
    (
        "open a\nset a 0 SIZE L\nbill a\nrouting a\nset a 0 FLOW 5\nrouting a\n",
        "ok open\nok complete\nstatus complete\n1 0010 HOUSING 1 PC\n1 0020 SEAL 2 PC\nend\n\
            status complete\n0 0010 ASSY ? MIN\nend\nok complete\nstatus complete\n0 0010 ASSY 17.5 MIN\nend\n",
    ),
    (
        "jump a\nshow a\nset b 0 SIZE L\nopen a\nset a 0 COLOUR L\nset a 1 SIZE L\nset a 0 SIZE\n\
            retract a 0 SIZE\n open c\n",
        "refused 0 NotARequest\nrefused 1 NoSession\nrefused 1 NoSession\nok open\n\
            refused 4 UnknownCharacteristic\nrefused 3 UnknownInstance\nrefused 0 NotARequest\n\
            refused 7 NotSet\nrefused 0 NotARequest\n",
    ),
    (
        "open a\nopen b\nset a 0 SIZE S\nopen a\nclose a\nshow a\nopen a\nset b 0 MOTOR E3\n",
        "ok open\nok open\nok complete\nrefused 14 NameTaken\nok closed\nrefused 1 NoSession\nok open\n\
            ok complete\n",
    ),
    (
        "OPEN a\r\n\r\n\n* a comment\nSet a 0 size S\r\nset a 0 SIZE \nshow A\nretract a 0 Size",
        "ok open\nok complete\nrefused 5 NotInList\nrefused 1 NoSession\nok open\n",
    ),
    ("open a\nset a 0 SIZE S\r", "ok open\nrefused 5 NotInList\n"),
    ("* open a\n\n", ""),
];

#[test]
fn a_script_is_answered_line_by_line(rt: HostRuntime) -> Result<(), Fail> {
    for (script, wanted) in ROWS.iter() {
        let ended = run(rt.alloc(), script.as_bytes(), 0, 0)?;
        assert_eq!(rt; ended.written.as_slice(), wanted.as_bytes());
        assert_eq!(rt; ended.status, 0);
    }
    Ok(())
}

const SCRIPT: &str = "open a\nset a 0 SIZE L\nshow a\nretract a 0 SIZE\nshow a\n";

#[test]
fn a_failing_sink_cuts_what_is_written(rt: HostRuntime) -> Result<(), Fail> {
    let whole = run(rt.alloc(), SCRIPT.as_bytes(), 0, 0)?;
    for call in 1..6 {
        let ended = run(rt.alloc(), SCRIPT.as_bytes(), 0, call)?;
        assert_eq!(rt; ended.status, 5);
        assert!(rt;
            whole
                .written
                .as_slice()
                .starts_with(ended.written.as_slice())
        );
        assert!(rt; ended.written.len() < whole.written.len());
    }
    let ended = run(rt.alloc(), SCRIPT.as_bytes(), 0, 6)?;
    assert_eq!(rt; ended.status, 0);
    Ok(())
}

#[test]
fn a_failing_shelf_names_the_file(rt: HostRuntime) -> Result<(), Fail> {
    let lines: [&str; 3] = [
        "read fault: pump\n",
        "read fault: sm.csv\n",
        "read fault: script\n",
    ];
    for call in 1..10 {
        let ended = run(rt.alloc(), SCRIPT.as_bytes(), call, 0)?;
        let line = lines[(call as usize - 1) / 3];
        assert_eq!(rt; ended.written.as_slice(), line.as_bytes());
        assert_eq!(rt; ended.status, 4);
    }
    let ended = run(rt.alloc(), SCRIPT.as_bytes(), 10, 0)?;
    assert_eq!(rt; ended.status, 0);
    Ok(())
}

const SAVING: &str =
    "open a\nset a 0 SIZE L\nsave a x\nset a 0 FLOW 5\nload a x\nload a y\nforget x\n\
        forget x\nset a 0 MOTOR E1\nshow a\n";

/// What is written before and after the five replies that the keeper's calls decide.
const BEFORE_SAVING: &str = "ok open\nok complete\n";

const AFTER_SAVING: &str = "ok contradiction constraint C_SM 1 at 0\n\
        status contradiction constraint C_SM 1 at 0\nuser 0 SIZE = 'L'\nuser 0 MOTOR = 'E1'\n";

#[test]
fn what_is_saved_is_loaded(rt: HostRuntime) -> Result<(), Fail> {
    let kept = "ok saved\nok complete\nok complete\nrefused 8 NothingSaved\nok forgotten\n\
        refused 8 NothingSaved\n";
    let ended = run_saving(rt.alloc(), SAVING.as_bytes(), 0)?;
    let wanted = format!(in rt.alloc(); "{}{}{}end\n", BEFORE_SAVING, kept, AFTER_SAVING)?;
    assert_eq!(rt; ended.written.as_slice(), wanted.as_bytes());
    assert_eq!(rt; ended.status, 0);
    Ok(())
}

/// The keeper's calls, and what is written for them and for FLOW where the call of this place fails.
const FAILING: [(&str, &str); 5] = [
    (
        "refused 10 KeeperFault\nok complete\nrefused 8 NothingSaved\nrefused 8 NothingSaved\n\
            refused 8 NothingSaved\nrefused 8 NothingSaved\n",
        "user 0 FLOW = 5\nend\n",
    ),
    (
        "ok saved\nok complete\nrefused 10 KeeperFault\nrefused 8 NothingSaved\nok forgotten\n\
            refused 8 NothingSaved\n",
        "user 0 FLOW = 5\nend\n",
    ),
    (
        "ok saved\nok complete\nok complete\nrefused 10 KeeperFault\nok forgotten\n\
            refused 8 NothingSaved\n",
        "end\n",
    ),
    (
        "ok saved\nok complete\nok complete\nrefused 8 NothingSaved\nrefused 10 KeeperFault\n\
            ok forgotten\n",
        "end\n",
    ),
    (
        "ok saved\nok complete\nok complete\nrefused 8 NothingSaved\nok forgotten\n\
            refused 10 KeeperFault\n",
        "end\n",
    ),
];

#[test]
fn a_failing_keeper_changes_nothing(rt: HostRuntime) -> Result<(), Fail> {
    let ended = run_saving(rt.alloc(), SAVING.as_bytes(), 1)?;
    assert_eq!(rt; ended.written.as_slice(), b"keeper fault\n".as_slice());
    assert_eq!(rt; ended.status, 7);
    let mut call: u64 = 2;
    for (kept, end) in FAILING.iter() {
        let ended = run_saving(rt.alloc(), SAVING.as_bytes(), call)?;
        let wanted = format!(in rt.alloc(); "{}{}{}{}", BEFORE_SAVING, kept, AFTER_SAVING, end)?;
        assert_eq!(rt; ended.written.as_slice(), wanted.as_bytes());
        assert_eq!(rt; ended.status, 0);
        call = call.saturating_add(1);
    }
    Ok(())
}

const USAGE: &str =
    "usage: configd check MODEL, run MODEL SCRIPT [KEEPFILE], serve MODEL ADDRESS N [KEEPFILE], verify MODEL \
        CHAIN, gen N\n";

#[test]
fn each_cause_has_its_status(rt: HostRuntime) -> Result<(), Fail> {
    let mut shelf = MemShelf::new(rt.alloc());
    shelf.add(rt.alloc(), "pump", PUMP.as_bytes())?;
    shelf.add(rt.alloc(), "sm.csv", ROWS_OF_SM.as_bytes())?;
    shelf.add(rt.alloc(), "unrooted", b"MODEL PUMP VERSION 1\n")?;
    shelf.add(rt.alloc(), "script", SCRIPT.as_bytes())?;
    let large = vec![in rt.alloc(); b'*'; vc_outside::FILE_LIMIT + 1]?;
    shelf.add(rt.alloc(), "large", large.as_slice())?;
    let rows: [(&[&str], u8, &str); 14] = [
        (&[], 1, USAGE),
        (&["gen"], 1, USAGE),
        (&["gen", "0"], 1, USAGE),
        (&["gen", "1001"], 1, USAGE),
        (&["verify", "pump"], 1, USAGE),
        (&["run", "pump"], 1, USAGE),
        (&["check", "pump", "script"], 1, USAGE),
        (&["run", "pump", "script", "keep", "more"], 1, USAGE),
        (
            &["run", "unrooted", "script"],
            2,
            "model refused: text 14 line 2\n",
        ),
        (
            &["run", "unrooted", "nowhere"],
            2,
            "model refused: text 14 line 2\n",
        ),
        (&["run", "nowhere", "script"], 3, "no such file: nowhere\n"),
        (&["run", "pump", "nowhere"], 3, "no such file: nowhere\n"),
        (&["run", "pump", "large"], 11, "too large: large\n"),
        (
            &["check", "pump"],
            0,
            "ok: 1 slots, 3 variables, 4 rules, 11 atoms, 26 cells\n",
        ),
    ];
    for (words, status, line) in rows.iter() {
        let ended = run_with(rt.alloc(), words, &mut shelf, 0)?;
        assert_eq!(rt; ended.written.as_slice(), line.as_bytes());
        assert_eq!(rt; ended.status, *status);
    }
    Ok(())
}

#[test]
fn a_table_is_read_with_its_model(rt: HostRuntime) -> Result<(), Fail> {
    let mut shelf = MemShelf::new(rt.alloc());
    shelf.add(rt.alloc(), "pump", PUMP.as_bytes())?;
    shelf.add(rt.alloc(), "script", SCRIPT.as_bytes())?;
    let ended = run_with(rt.alloc(), &["run", "pump", "script"], &mut shelf, 0)?;
    assert_eq!(rt;
        ended.written.as_slice(),
        b"no such file: sm.csv\n".as_slice()
    );
    assert_eq!(rt; ended.status, 3);
    shelf.add(rt.alloc(), "sm.csv", b"SIZE,MOTOR\nS,E1\nS,E9\n")?;
    let ended = run_with(rt.alloc(), &["run", "pump", "script"], &mut shelf, 0)?;
    assert_eq!(rt;
        ended.written.as_slice(),
        b"model refused: table SM 2 row 3\n".as_slice()
    );
    assert_eq!(rt; ended.status, 2);
    Ok(())
}

#[test]
fn a_sink_without_room_cuts_what_is_written(rt: HostRuntime) -> Result<(), Fail> {
    let mut shelf = MemShelf::new(rt.alloc());
    shelf.add(rt.alloc(), "pump", PUMP.as_bytes())?;
    shelf.add(rt.alloc(), "sm.csv", ROWS_OF_SM.as_bytes())?;
    shelf.add(rt.alloc(), "script", SCRIPT.as_bytes())?;
    let mut words = Vec::new(rt.alloc());
    for name in ["run", "pump", "script"].iter() {
        words.push(String::from_str(rt.alloc(), name)?)?;
    }
    let mut keeper = MemKeeper::new(rt.alloc());
    let mut sink = MemSink::with_room(rt.alloc(), 15)?;
    assert_eq!(rt;
        status_of(
            rt.alloc(),
            words.as_slice(),
            &mut shelf,
            &mut keeper,
            &mut sink
        )?,
        5
    );
    assert_eq!(rt; sink.written(), b"ok open\nok comp".as_slice());
    Ok(())
}

#[test]
fn a_long_line_is_no_request(rt: HostRuntime) -> Result<(), Fail> {
    let mut script = Vec::from_slice(rt.alloc(), b"open a\nset a 0 SIZE ".as_slice())?;
    for _ in 0..4084 {
        script.push(b'L')?;
    }
    script.extend_from_slice(b"\nset a 0 SIZE ".as_slice())?;
    for _ in 0..4083 {
        script.push(b'L')?;
    }
    let ended = run(rt.alloc(), script.as_slice(), 0, 0)?;
    assert_eq!(rt;
        ended.written.as_slice(),
        b"ok open\nrefused 0 NotARequest\nrefused 5 NotInList\n".as_slice()
    );
    Ok(())
}

#[test]
fn families_are_told(rt: HostRuntime) -> Result<(), Fail> {
    let mut shelf = MemShelf::new(rt.alloc());
    let ended = run_with(rt.alloc(), &["gen", "2"], &mut shelf, 0)?;
    assert_eq!(rt;
        ended.written.as_slice(),
        b"family 1 values 12 sum 12\nfamily 2 values 20 sum 34\n".as_slice()
    );
    assert_eq!(rt; ended.status, 0);
    let ended = run_with(rt.alloc(), &["gen", "2"], &mut shelf, 2)?;
    assert_eq!(rt;
        ended.written.as_slice(),
        b"family 1 values 12 sum 12\n".as_slice()
    );
    assert_eq!(rt; ended.status, 5);
    Ok(())
}

/// Chain files for the pump, and what is said of each.
const CHAINS: [(&str, &str, u8); 3] = [
    ("chain\nend\n", "accepted\n", 0),
    (
        "chain\n1 is 0 SIZE 'L' by user\nclash by constraint C_SM 1 at 0 from 1\nend\n",
        "not accepted: clash\n",
        9,
    ),
    ("chain\n", "not a chain: line 2\n", 10),
];

#[test]
fn a_chain_file_is_judged(rt: HostRuntime) -> Result<(), Fail> {
    for (chain, line, status) in CHAINS.iter() {
        let mut shelf = MemShelf::new(rt.alloc());
        shelf.add(rt.alloc(), "pump", PUMP.as_bytes())?;
        shelf.add(rt.alloc(), "sm.csv", ROWS_OF_SM.as_bytes())?;
        shelf.add(rt.alloc(), "chain", chain.as_bytes())?;
        let ended = run_with(rt.alloc(), &["verify", "pump", "chain"], &mut shelf, 0)?;
        assert_eq!(rt; ended.written.as_slice(), line.as_bytes());
        assert_eq!(rt; ended.status, *status);
    }
    Ok(())
}
