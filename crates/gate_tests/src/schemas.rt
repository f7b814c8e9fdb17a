//! Schemas that are refused, through the whole program: at least one for each code. The texts for each
//! ground of a code stand in a table of `schema_tests`.

use crate::outside::{ALL_WELL, Meets, PLAIN, run};
use std::test::Fail;

/// The bytes of a schema, and the line that the run stops with.
type Row = (&'static [u8], &'static [u8]);

const REFUSED: [Row; 11] = [
    (
        b"type Query {\n a: }",
        b"{\"out\":\"stopped\",\"status\":3,\"file\":\"schema\",\"code\":\"S1\",\"line\":2}\n",
    ),
    (
        b"type Query { a: Int }\n# \xff",
        b"{\"out\":\"stopped\",\"status\":3,\"file\":\"schema\",\"code\":\"S1\",\"line\":2}\n",
    ),
    (
        b"extend type Query { a: Int }",
        b"{\"out\":\"stopped\",\"status\":3,\"file\":\"schema\",\"code\":\"S2\",\"line\":1}\n",
    ),
    (
        b"type Query { a: Int a: Int }\ntype __B { a: Int }",
        b"{\"out\":\"stopped\",\"status\":3,\"file\":\"schema\",\"code\":\"S3\",\"line\":1}\n",
    ),
    (
        b"type Query { a: B }\nscalar __A",
        b"{\"out\":\"stopped\",\"status\":3,\"file\":\"schema\",\"code\":\"S4\",\"line\":2}\n",
    ),
    (
        b"type Query { a: B }",
        b"{\"out\":\"stopped\",\"status\":3,\"file\":\"schema\",\"code\":\"S5\",\"line\":1}\n",
    ),
    (
        b"type Query { a: Int }\nunion U = I |\n I2\ninterface I { a: Int } interface I2 { a: Int }",
        b"{\"out\":\"stopped\",\"status\":3,\"file\":\"schema\",\"code\":\"S6\",\"line\":2}\n",
    ),
    (
        b"type Query\n implements I { a: Int }\ninterface I { b: Int }",
        b"{\"out\":\"stopped\",\"status\":3,\"file\":\"schema\",\"code\":\"S7\",\"line\":2}\n",
    ),
    (
        b"type A { a: Int }",
        b"{\"out\":\"stopped\",\"status\":3,\"file\":\"schema\",\"code\":\"S8\",\"line\":0}\n",
    ),
    (
        b"type Query { a(x: Int = \"q\"): Int }",
        b"{\"out\":\"stopped\",\"status\":3,\"file\":\"schema\",\"code\":\"S9\",\"line\":1}\n",
    ),
    (
        b"type Query { a: Int }\n\n\n\n\n\n\n\n\n\n\ninput I { a: I! }",
        b"{\"out\":\"stopped\",\"status\":3,\"file\":\"schema\",\"code\":\"S9\",\"line\":12}\n",
    ),
];

/// No line is read, and the rules, which aren't there, aren't asked for.
#[test]
fn a_refused_schema_stops_the_run(rt: HostRuntime) -> Result<(), Fail> {
    for (schema, stopped) in REFUSED {
        let meets = Meets {
            has_rules: false,
            schema,
            ..ALL_WELL
        };
        let ran = run(rt.alloc(), &PLAIN, "{}\n", &meets)?;
        assert_eq!(rt; ran.status, 3);
        assert_eq!(rt; ran.text.as_bytes(), stopped);
        assert_eq!(rt; ran.taken, 0);
    }
    Ok(())
}

#[test]
fn a_failing_write_of_the_stopped_line_is_told(rt: HostRuntime) -> Result<(), Fail> {
    let meets = Meets {
        failing_write: 1,
        schema: REFUSED[0].0,
        ..ALL_WELL
    };
    let ran = run(rt.alloc(), &PLAIN, "{}\n", &meets)?;
    assert_eq!(rt; ran.status, 5);
    assert_eq!(rt; ran.text.as_str(), "");
    Ok(())
}
