use crate::cell_map::link;
use crate::operations::Types;
use answer_parts::has_shape;
use std::alloc::Global;
use std::test::Fail;
use text_types::Text;

/// Fields that lead to objects.
const LINKS: &str = "type Query{one:T! many:[T!] some:[T]!} type T{id:ID!}";

/// Whether a link has the shape of a field's type.
fn fits(alloc: Global, types: &Types, name: &str, keys: &str) -> Result<bool, Fail> {
    let name = Text::from_str(alloc, name)?;
    let link = link(alloc, keys)?;
    Ok(has_shape(types.field_type(&name)?, &link))
}

#[test]
fn links_have_shapes(rt: HostRuntime) -> Result<(), Fail> {
    let alloc = rt.alloc();
    let types = Types::of(alloc, LINKS)?;
    let rows = [
        ("one", "T:1", true),
        ("one", "", false),
        ("one", "*T:1", false),
        ("many", "", true),
        ("many", "*T:1 T:2", true),
        ("many", "*T:1 ", false),
        ("many", "T:1", false),
        ("some", "*T:1 ", true),
        ("some", "", false),
    ];
    for (name, keys, expected) in rows {
        let found = fits(alloc, &types, name, keys)?;
        assert!(rt; found == expected, "{name} {keys}");
    }
    Ok(())
}
