//! Dependencies and their canonical texts.

use std::test::Fail;
use vc_syntax::{read_dependency, read_term};
use vc_syntax_print::{print_dependency, print_term};
use vc_syntax_tokens::Kind;

// Each with its canonical text.
const TEXTS: [(Kind, &str, &str); 9] = [
    (
        Kind::Precondition,
        "size='L' and not specified Flow",
        "SIZE = 'L' AND NOT SPECIFIED FLOW",
    ),
    (
        Kind::Selection,
        "A = 1 OR (B = 2 AND C = 3).",
        "A = 1 OR B = 2 AND C = 3",
    ),
    (
        Kind::Selection,
        "((A eq 1 or b ne 2) and (c lt 3 and ((d) le 4))) or (not (e gt 5 or f ge 6))",
        "( A = 1 OR B <> 2 ) AND ( C < 3 AND D <= 4 ) OR NOT ( E > 5 OR F >= 6 )",
    ),
    (
        Kind::Selection,
        "(flow specified) and not (not (opt in ('it''s', -3 - -1, 01.50)))",
        "SPECIFIED FLOW AND NOT NOT OPT IN ( 'it''s' , - 3 - - 1 , 1.5 )",
    ),
    (
        Kind::Term,
        "((a - b) - (c - (d))) * -(e * f) / (g / (-h)) + (2 * 3)",
        "( A - B - ( C - D ) ) * - ( E * F ) / ( G / - H ) + 2 * 3",
    ),
    (
        Kind::Term,
        "abs((a + sign(b))) - $sum_parts($self, c) - ($count_parts ($self) - - 1)",
        "ABS ( A + SIGN ( B ) ) - $SUM_PARTS ( $SELF , C ) - ( $COUNT_PARTS ( $SELF ) - - 1 )",
    ),
    (
        Kind::Procedure,
        "$self.a = (1 + $root.b) if c =< 2, $set_default ($self, d, trunc(e)),\n\
            $del_default($self,f,'x') if (?p.g => 1), table if (h = $parent.i, j = ?v).",
        "$SELF.A = 1 + $ROOT.B IF C <= 2 , $SET_DEFAULT ( $SELF , D , TRUNC ( E ) ) , $DEL_DEFAULT ( $SELF , F \
            , 'x' ) IF ?P.G >= 1 , TABLE IF ( H = $PARENT.I , J = ?V )",
    ),
    (
        Kind::Constraint,
        "objects: ?p is_a (300) cl. restriction: false.",
        "OBJECTS : ?P IS_A ( 300 ) CL .\nRESTRICTIONS : FALSE .",
    ),
    (
        Kind::Constraint,
        "* of pumps\n\
            objects: ?p is_a (300.0) cl0 where ?v = a; ?w = b, ?q is_object (material)(300)(nr = 'M').\n\
            condition: ((?v = 1) or part_of (?p, ?q)).\n\
            restriction: false if (part_of (?p, \
            ?q) and (?w in (1 - 5) or ?w specified)),\n  ?p.a ne (2 * (?v + 1)),\n  table t (c = ?p.a, \
            d = floor(?v)) if not (?p.b = 'x').\n\
            inferences: ?p.a, ?v.",
        "OBJECTS : ?P IS_A ( 300 ) CL0 WHERE ?V = A ; ?W = B , ?Q IS_OBJECT ( MATERIAL ) ( 300 ) ( NR = 'M' ) .\n\
            CONDITION : ?V = 1 OR PART_OF ( ?P , ?Q ) .\n\
            RESTRICTIONS : FALSE IF PART_OF ( ?P , ?Q ) AND ( ?W IN ( 1 - 5 ) OR SPECIFIED ?W ) , \
            ?P.A <> 2 * ( ?V + 1 ) , TABLE T ( C = ?P.A , D = FLOOR ( ?V ) ) IF NOT ?P.B = 'x' .\n\
            INFERENCES : ?P.A , ?V .",
    ),
];

#[test]
fn texts_are_printed(rt: HostRuntime) -> Result<(), Fail> {
    for (kind, text, wanted) in TEXTS.iter() {
        if let Ok(dependency) = read_dependency(rt.alloc(), text.as_bytes(), *kind) {
            let printed = print_dependency(rt.alloc(), &dependency)?;
            assert!(rt; printed.is(wanted.as_bytes()), "{text}");
        } else {
            assert!(rt; false, "{text}");
        }
    }
    Ok(())
}

#[test]
fn a_term_is_printed(rt: HostRuntime) -> Result<(), Fail> {
    let printed = match read_term(rt.alloc(), b"2*(a+1)") {
        Ok(term) => print_term(rt.alloc(), &term)?.is(b"2 * ( A + 1 )"),
        Err(_) => false,
    };
    assert!(rt; printed);
    Ok(())
}
