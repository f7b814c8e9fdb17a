use crate::texts::{document, schema};
use merge_rules::breaks_single_root_field;
use site_walk::Scope;
use std::test::Fail;

const TYPES: &str =
    "type Query{a:Int} type Subscription implements R{a:Int b:Int} interface R{a:Int}";

#[test]
fn single_root_field(rt: HostRuntime) -> Result<(), Fail> {
    let alloc = rt.alloc();
    let schema = schema(alloc, TYPES)?;
    let rows = [
        ("subscription{a}", false),
        ("subscription{a b}", true),
        ("subscription{a a}", false),
        ("subscription{x:a x:a}", false),
        ("subscription{x:a a}", true),
        ("subscription{__typename}", true),
        ("subscription{a b @skip(if:true)}", true),
        ("subscription{...F} fragment F on Subscription{a b}", true),
        ("subscription{a ...F} fragment F on Query{c:a}", false),
        ("subscription{...on R{a} ...{b}}", true),
        ("{a} subscription B{a b}", true),
        ("{a b:a}", false),
    ];
    for (text, expected) in rows {
        let document = document(alloc, text)?;
        let scope = Scope::new(alloc, &schema, &document)?;
        assert!(rt; breaks_single_root_field(&scope) == expected, "{text}");
    }
    Ok(())
}
