//! A line of each form, lines that miss a form by little, and a block.

use std::alloc::Global;
use std::process::Abort;
use std::test::Fail;
use vc_model_lines::classified::{is_in_block, line_of};
use vc_model_lines::cut;
use vc_model_lines::line::Line;

fn form(line: &Line) -> &'static str {
    match line {
        Line::Skipped => "skipped",
        Line::Inner(_) => "inner",
        Line::LongInner => "long inner",
        Line::End => "end",
        Line::TooLong(_) => "too long",
        Line::NoForm(_) => "none",
        Line::Head(_) => "head",
        Line::Char(_) => "char",
        Line::Num(_) => "num",
        Line::Text(_) => "text",
        Line::Interval(_) => "interval",
        Line::Uses(_) => "uses",
        Line::Class(_) => "class",
        Line::Has(_) => "has",
        Line::Table(_) => "table",
        Line::Column(_) => "column",
        Line::Net(_) => "net",
        Line::Object(_) => "object",
        Line::Bill(_) => "bill",
        Line::Operation(_) => "operation",
        Line::Block(_) => "block",
        Line::Root(_) => "root",
        Line::Action => "action",
    }
}

#[test]
fn a_line_is_of_one_form(rt: HostRuntime) -> Result<(), Fail> {
    for (text, want) in [
        ("MODEL PUMP VERSION 1", "head"),
        ("MODEL PUMP VERSION", "none"),
        ("  char SIZE x REQUIRED restrictable ", "char"),
        ("CHAR SIZE 1 REQUIRED REQUIRED", "none"),
        ("CHAR SIZE", "none"),
        ("NUM FLOW 1 RESTRICTABLE UNIT m3/h", "num"),
        ("NUM FLOW 1 UNIT m3/h REQUIRED", "none"),
        ("NUM FLOW 1 MULTIPLE", "none"),
        ("VALUE 'it''s  two'", "text"),
        ("VALUE 'A' X", "none"),
        ("VALUE 'A", "none"),
        ("VALUE x", "interval"),
        ("VALUE 0 .. 100", "interval"),
        ("VALUE 0 - 100", "none"),
        ("USES S_L", "uses"),
        ("CLASS PUMPS", "class"),
        ("HAS SIZE", "has"),
        ("TABLE SM FILE sm.csv", "table"),
        ("COLUMN SIZE KEY", "column"),
        ("NET MAIN", "net"),
        ("OBJECT PUMP CLASS PUMPS", "object"),
        ("LINE 0010 SEAL PC : 2", "bill"),
        ("LINE 0010 SEAL PC :2", "none"),
        ("OPERATION 0010 ASSY MIN :", "operation"),
        ("CONSTRAINT C_SM", "block"),
        ("ROOT PUMP", "root"),
        ("ACTION X", "action"),
        ("ACTION", "none"),
        ("END", "none"),
    ] {
        let line = line_of(rt.alloc(), false, text.as_bytes())?;
        assert!(rt; form(&line) == want, "{text}");
    }
    Ok(())
}

fn forms_of<R: Abort>(rt: &R, alloc: Global, text: &str) -> Vec<&'static str> {
    let mut forms = Vec::new(alloc);
    let mut inside = false;
    let mut rest = text.as_bytes();
    for _ in 0..100 {
        let Some((raw, more)) = cut(rest) else {
            break;
        };
        let line = line_of(alloc, inside, raw).expect(rt, "memory");
        inside = is_in_block(&line);
        forms.push(form(&line)).expect(rt, "memory");
        rest = more;
    }
    forms
}

#[test]
fn a_block_keeps_its_lines(rt: HostRuntime) -> Result<(), Fail> {
    let text = "* of the model\r\n\nSELECTION S_L\n* of the block\n  SIZE = 'L'\nend\nROOT PUMP";
    let forms = forms_of(&rt, rt.alloc(), text);
    let want = [
        "skipped", "skipped", "block", "inner", "inner", "end", "root",
    ];
    assert!(rt; forms.as_slice() == want.as_slice());
    match line_of(rt.alloc(), true, b"  SIZE = 'L' ")? {
        Line::Inner(text) => assert!(rt; text.is(b"SIZE = 'L'")),
        _ => assert!(rt; false),
    }
    Ok(())
}
