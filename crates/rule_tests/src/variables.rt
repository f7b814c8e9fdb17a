use crate::texts::{document, schema};
use fragment_rules::{FragmentIndex, spread_graph};
use site_walk::Scope;
use std::test::Fail;
use variable_rules::{
    UseFaults, breaks_variable_uniqueness, breaks_variables_are_input_types, use_faults,
};

const TYPES: &str =
    "type Query{a(n:Int q:Int! d:Int!=1 l:[Int!] i:I j:J):Int o:Query} input I{r:Int! s:[I]} scalar J";

#[test]
fn declarations(rt: HostRuntime) -> Result<(), Fail> {
    let alloc = rt.alloc();
    let schema = schema(alloc, TYPES)?;
    let rows = [
        ("query($a:Int $b:[I!]!){a}", false, false),
        ("query($a:Int $a:Int){a}", true, false),
        ("{a} query B($a:Query){a}", false, true),
        ("query($a:[Unknown]){a}", false, true),
    ];
    for (text, twice, other) in rows {
        let document = document(alloc, text)?;
        assert!(rt;
            breaks_variable_uniqueness(alloc, &document)? == twice,
            "{text}"
        );
        assert!(rt;
            breaks_variables_are_input_types(&schema, &document) == other,
            "{text}"
        );
    }
    Ok(())
}

const fn faults(undeclared: bool, unused: bool, disallowed: bool) -> UseFaults {
    UseFaults {
        undeclared,
        unused,
        disallowed,
    }
}

#[test]
fn uses(rt: HostRuntime) -> Result<(), Fail> {
    let alloc = rt.alloc();
    let schema = schema(alloc, TYPES)?;
    let rows = [
        ("query($v:Int){a(n:$v)}", faults(false, false, false)),
        ("{a(n:$v)}", faults(true, false, false)),
        ("query($v:Int){a}", faults(false, true, false)),
        (
            "query($v:Int){...F} fragment F on Query{o{...G}} fragment G on Query{a(n:$v)}",
            faults(false, false, false),
        ),
        (
            "{...F} query B($v:Int){...F} fragment F on Query{a(n:$v)}",
            faults(true, false, false),
        ),
        (
            "query($v:Boolean!){...F} fragment F on Query @skip(if:$v){a}",
            faults(false, false, false),
        ),
        ("query($v:Int){a(q:$v)}", faults(false, false, true)),
        ("query($v:Int=1){a(q:$v)}", faults(false, false, false)),
        ("query($v:Int=null){a(q:$v)}", faults(false, false, true)),
        ("query($v:Int){a(d:$v)}", faults(false, false, false)),
        ("query($v:Int!){a(n:$v)}", faults(false, false, false)),
        ("query($v:Int){a(l:$v)}", faults(false, false, true)),
        ("query($v:Int){a(l:[$v])}", faults(false, false, true)),
        ("query($v:[Int!]!){a(l:$v)}", faults(false, false, false)),
        (
            "query($v:Int!){a(i:{r:1 s:{r:$v}})}",
            faults(false, false, false),
        ),
        ("query($v:I){a(j:{x:[$v]})}", faults(false, false, false)),
    ];
    for (text, expected) in rows {
        let document = document(alloc, text)?;
        let index = FragmentIndex::of(alloc, &document)?;
        let graph = spread_graph(alloc, &index, &document)?;
        let scope = Scope::new(alloc, &schema, &document)?;
        let found = use_faults(alloc, &scope, &graph)?;
        assert!(rt; found == expected, "{text}");
    }
    Ok(())
}
