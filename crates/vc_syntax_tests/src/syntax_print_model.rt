//! The dependencies of models that stand in examples/, and their canonical texts.

use std::alloc::{AllocError, Global};
use std::test::Fail;
use vc_syntax::read_dependency;
use vc_syntax_print::dependencies::print_dependency;
use vc_syntax_tokens::Kind;

// Those of PUMP, RING, STEP, PAINT, MACH and GEAR in this order, each with its canonical text.
const TEXTS: [(Kind, &str, &str); 11] = [
    (
        Kind::Constraint,
        "OBJECTS: ?P IS_A (300)PUMPS.\nRESTRICTIONS: TABLE SM (SIZE = ?P.SIZE, MOTOR = ?P.MOTOR).\n\
            INFERENCES: ?P.SIZE, ?P.MOTOR.",
        "OBJECTS : ?P IS_A ( 300 ) PUMPS .\nRESTRICTIONS : TABLE SM ( SIZE = ?P.SIZE , MOTOR = ?P.MOTOR ) .\n\
            INFERENCES : ?P.SIZE , ?P.MOTOR .",
    ),
    (Kind::Selection, "SIZE = 'L'", "SIZE = 'L'"),
    (Kind::Term, "15 + FLOW / 2", "15 + FLOW / 2"),
    (
        Kind::Constraint,
        "OBJECTS: ?R IS_A (300)RINGS.\nRESTRICTIONS: ?R.A = '1' IF ?R.X = '1'.\nINFERENCES: ?R.A.",
        "OBJECTS : ?R IS_A ( 300 ) RINGS .\nRESTRICTIONS : ?R.A = '1' IF ?R.X = '1' .\nINFERENCES : ?R.A .",
    ),
    (
        Kind::Constraint,
        "OBJECTS: ?R IS_A (300)RINGS.\nRESTRICTIONS: TABLE AB (A = ?R.A, B = ?R.B).\nINFERENCES: ?R.A, ?R.B.",
        "OBJECTS : ?R IS_A ( 300 ) RINGS .\nRESTRICTIONS : TABLE AB ( A = ?R.A , B = ?R.B ) .\n\
            INFERENCES : ?R.A , ?R.B .",
    ),
    (
        Kind::Constraint,
        "OBJECTS: ?S IS_A (300)STEPPERS.\n\
            RESTRICTIONS: ?S.FLOW <= 2 * ?S.STEPS,\n  ?S.STEPS >= 1 IF ?S.FLOW > 5,\n  ?S.STEPS >= 2 IF ?S.FLOW > 10.\n\
            INFERENCES: ?S.FLOW.",
        "OBJECTS : ?S IS_A ( 300 ) STEPPERS .\n\
            RESTRICTIONS : ?S.FLOW <= 2 * ?S.STEPS , ?S.STEPS >= 1 IF ?S.FLOW > 5 , ?S.STEPS >= 2 IF ?S.FLOW > 10 .\n\
            INFERENCES : ?S.FLOW .",
    ),
    (Kind::Precondition, "MODE = 'N'", "MODE = 'N'"),
    (
        Kind::Procedure,
        "$SET_DEFAULT ($SELF, COLOR, 'RED')",
        "$SET_DEFAULT ( $SELF , COLOR , 'RED' )",
    ),
    (
        Kind::Procedure,
        "$SELF.COLOR = 'GREEN' IF MODE = 'H'",
        "$SELF.COLOR = 'GREEN' IF MODE = 'H'",
    ),
    (Kind::Selection, "DRIVEN = 'Y'", "DRIVEN = 'Y'"),
    (
        Kind::Procedure,
        "$SELF.TOTAL = $SUM_PARTS ($SELF, WEIGHT)",
        "$SELF.TOTAL = $SUM_PARTS ( $SELF , WEIGHT )",
    ),
];

fn is_printed_as(
    alloc: Global,
    kind: Kind,
    text: &[u8],
    wanted: &[u8],
) -> Result<bool, AllocError> {
    if text.len() >= 1_000 {
        return Ok(false);
    }
    match read_dependency(alloc, text, kind) {
        Ok(dependency) => Ok(print_dependency(alloc, &dependency)?.is(wanted)),
        Err(_) => Ok(false),
    }
}

#[test]
fn texts_of_models_are_printed(rt: HostRuntime) -> Result<(), Fail> {
    for (kind, text, wanted) in TEXTS.iter() {
        let printed = is_printed_as(rt.alloc(), *kind, text.as_bytes(), wanted.as_bytes())?;
        assert!(rt; printed, "{text}");
    }
    Ok(())
}
