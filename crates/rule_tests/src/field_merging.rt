use crate::texts::{document, schema};
use merge_rules::breaks_field_merging;
use site_walk::Scope;
use std::test::Fail;

const TYPES: &str =
    "type Query{a(x:Int y:J):Int s:String pet:Pet} scalar J interface Pet{name:String} type Dog implements Pet{name:String n:Int l:[Int] r:Int! self:Dog} type Cat implements Pet{name:String n:String l:Int r:Int self:Cat m:Int}";

#[test]
fn field_merging(rt: HostRuntime) -> Result<(), Fail> {
    let alloc = rt.alloc();
    let schema = schema(alloc, TYPES)?;
    let rows = [
        ("{a a(x:1) b:a}", true),
        ("{a a a}", false),
        ("{a(x:1 y:{k:[1]}) a(y:{k:[1]} x:1)}", false),
        ("{a(y:{k:1 m:2}) a(y:{m:2 k:1})}", true),
        ("{a:s a}", true),
        ("{s:a(x:1) s:a(x:2)}", true),
        (
            "{...F} fragment F on Query{s:a(x:1) ...G} fragment G on Query{...H} fragment H on Query{s:a(x:2)}",
            true,
        ),
        ("{pet{...on Dog{k:name} ...on Cat{k:name}}}", false),
        ("{pet{...on Dog{k:n} ...on Cat{k:m}}}", false),
        ("{pet{...on Dog{k:n} ...on Cat{k:n}}}", true),
        ("{pet{...on Dog{l} ...on Cat{l}}}", true),
        ("{pet{...on Dog{r} ...on Cat{r}}}", true),
        ("{pet{k:name ...on Dog{k:__typename}}}", true),
        ("{pet{...on Dog{self{k:n}} ...on Cat{self{k:m}}}}", false),
        ("{a} query B{s s:a}", true),
    ];
    for (text, expected) in rows {
        let document = document(alloc, text)?;
        let scope = Scope::new(alloc, &schema, &document)?;
        let broken = breaks_field_merging(alloc, &scope)?;
        assert!(rt; broken == expected, "{text}");
    }
    Ok(())
}
