use crate::texts::{document, schema};
use site_walk::Scope;
use std::test::Fail;
use value_rules::{breaks_input_field_uniqueness, breaks_values_of_correct_type};

const TYPES: &str =
    "type Query{a(n:Int s:String l:[[Int]] e:E i:I j:J q:Int!):Int} enum E{X} input I{a:Int! b:I} scalar J";

#[test]
fn values_of_correct_type(rt: HostRuntime) -> Result<(), Fail> {
    let alloc = rt.alloc();
    let schema = schema(alloc, TYPES)?;
    let rows = [
        ("{a(n:1 s:\"x\" e:X q:1)}", false),
        ("{a(n:2147483648 q:1)}", true),
        ("{a(s:1 q:1)}", true),
        ("{a(l:1 q:1)}", false),
        ("{a(l:[1 [2]] q:1)}", false),
        ("{a(l:[[\"x\"]] q:1)}", true),
        ("{a(e:Y q:1)}", true),
        ("{a(i:{a:1 b:{a:2}} q:1)}", false),
        ("{a(i:{} q:1)}", true),
        ("{a(i:{a:1 c:2} q:1)}", true),
        ("{a(j:{x:[1 Y]} q:1)}", false),
        ("{a(q:null)}", true),
        ("query($v:Int=\"x\"){a(n:$v q:1)}", true),
        ("{a(q:1) @skip(if:3)}", true),
    ];
    for (text, expected) in rows {
        let document = document(alloc, text)?;
        let scope = Scope::new(alloc, &schema, &document)?;
        let broken = breaks_values_of_correct_type(alloc, &scope)?;
        assert!(rt; broken == expected, "{text}");
    }
    Ok(())
}

#[test]
fn input_field_uniqueness(rt: HostRuntime) -> Result<(), Fail> {
    let alloc = rt.alloc();
    let schema = schema(alloc, TYPES)?;
    let rows = [
        ("{a(i:{a:1 b:{a:1}} q:1)}", false),
        ("{a(j:{x:1 x:1} q:1)}", true),
        ("{a(j:[{y:{x:1 x:1}}] q:1)}", true),
        ("query($v:J={x:1 x:2}){a(j:$v q:1)}", true),
    ];
    for (text, expected) in rows {
        let document = document(alloc, text)?;
        let scope = Scope::new(alloc, &schema, &document)?;
        let broken = breaks_input_field_uniqueness(alloc, &scope)?;
        assert!(rt; broken == expected, "{text}");
    }
    Ok(())
}
