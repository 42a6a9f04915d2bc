//! The scope of a short text.

use std::test::Fail;
use vc_model_lines::classified::{is_in_block, line_of};
use vc_model_lines::cut;
use vc_model_scope::entries::{Entries, Interval};
use vc_model_scope::scope::ScopeBuilder;
use vc_model_scope::stands::{Under, UsesPlace};
use vc_value::Dec;

#[test]
fn lines_make_a_scope(rt: HostRuntime) -> Result<(), Fail> {
    let text =
        "MODEL A VERSION 1\nCHAR SIZE 2 MULTIPLE\nVALUE 'S'\nVALUE 'L'\nNUM FLOW 1\nVALUE 5\nCLASS C\nHAS SIZE\n";
    let mut builder = ScopeBuilder::new(rt.alloc());
    let mut inside = false;
    let mut rest = text.as_bytes();
    for _ in 0..100 {
        let Some((raw, more)) = cut(rest) else {
            break;
        };
        let line = line_of(rt.alloc(), inside, raw)?;
        builder.extend(rt.alloc(), &line)?;
        inside = is_in_block(&line);
        rest = more;
    }
    let scope = builder.scope();
    assert!(rt; scope.counted && scope.head && !scope.root);
    assert!(rt; scope.declared.characteristics.place(b"FLOW".as_slice()) == Some(1));
    assert!(rt;
        scope
            .declared
            .characteristics
            .place_near(b"FLOW".as_slice(), 1)
            == Some(1)
    );
    assert!(rt;
        scope
            .declared
            .characteristics
            .place_near(b"FLOW".as_slice(), 0)
            == Some(1)
    );
    assert!(rt;
        scope
            .declared
            .characteristics
            .place_near(b"HEAD".as_slice(), 2)
            == None
    );
    assert!(rt; scope.declared.multiples.has(b"SIZE".as_slice()));
    assert!(rt; !scope.declared.multiples.has(b"FLOW".as_slice()));
    assert!(rt; scope.declared.texts.len() == 2);
    assert!(rt; scope.standing.under == Under::Class);
    assert!(rt; scope.standing.members.has(b"SIZE".as_slice()));
    assert!(rt; scope.standing.texts.is_empty());
    assert!(rt; scope.uses.place == UsesPlace::Nowhere);
    let words = builder.into_texts(rt.alloc())?;
    match words.as_slice() {
        [first, second] => {
            assert!(rt; first.is(b"S".as_slice()) && second.is(b"L".as_slice()));
        }
        _ => assert!(rt; false),
    }
    Ok(())
}

#[test]
fn entries_stand_once(rt: HostRuntime) -> Result<(), Fail> {
    let five = Interval {
        low: Dec {
            millionths: 5_000_000,
        },
        high: Dec {
            millionths: 5_000_000,
        },
    };
    let mut entries = Entries::new(rt.alloc());
    assert!(rt; entries.last().is_none());
    entries.add(five)?;
    entries.add(five)?;
    assert!(rt; entries.len() == 1 && entries.has(five));
    assert!(rt; entries.last() == Some(five));
    Ok(())
}
