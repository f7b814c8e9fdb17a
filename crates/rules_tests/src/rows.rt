use crate::texts::{is_accepted, is_refused, schema};
use std::test::Fail;
use updater_rules::{Action, Rules, Term, read_rules};

const TYPES: &str = "type Query { me: User todo(id: ID!): Todo todos: [Todo!]! }
type Mutation { setDone(id: ID!, done: Boolean!): Todo rename(id: ID!, name: String!): User }
type User { id: ID! name: String! nick: String }
type Todo { id: ID! text: String! done: Boolean! author: User }";

const DONE_AT_ONCE: &str = "[[optimistic]]
on = \"Mutation.setDone\"
type = \"Todo\"
fields = { id = \"$id\", done = \"$done\" }
";

const TODOS_STALE: &str = "[[updater]]
on = \"Mutation.setDone\"
action = \"invalidate-field\"
type = \"Query\"
field = \"todos\"
";

#[test]
fn worked_rows(rt: HostRuntime) -> Result<(), Fail> {
    let alloc = rt.alloc();
    let schema = schema(alloc, TYPES)?;
    let rename = "action = \"invalidate\"\ntype = \"User\"\n";
    let nope = format!(in alloc; "[[updater]]\non = \"Mutation.nope\"\n{rename}id = \"$id\"\n")?;
    let unknown = format!(in alloc;
        "[[updater]]\non = \"Mutation.rename\"\n{rename}id = \"$x\"\n"
    )?;
    let sound = format!(in alloc; "[[updater]]\non = \"Mutation.rename\"\n{rename}id = \"$id\"\n")?;
    let keyless =
        "[[optimistic]]\non = \"Mutation.setDone\"\ntype = \"Todo\"\nfields = { done = \"$done\" }\n";
    assert!(rt; is_refused(alloc, &schema, b"x = ", 1, ""));
    assert!(rt; is_refused(alloc, &schema, nope.as_bytes(), 3, "updater 1"));
    assert!(rt; is_refused(alloc, &schema, keyless.as_bytes(), 8, "optimistic 1"));
    assert!(rt; is_refused(alloc, &schema, unknown.as_bytes(), 6, "updater 1"));
    assert!(rt; is_accepted(alloc, &schema, sound.as_str()));
    assert!(rt; is_accepted(alloc, &schema, DONE_AT_ONCE));
    Ok(())
}

/// Whether a file has one optimistic rule with the members `done` and `id`, from arguments of those names.
fn is_done_at_once(rules: &Rules) -> bool {
    match rules.optimistic.as_slice() {
        [rule] => match rule.fields.as_slice() {
            [(done, Term::Argument(first)), (id, Term::Argument(second))] => {
                rule.on.is("Mutation.setDone")
                    && rule.named.is("Todo")
                    && done.is("done")
                    && first.is("done")
                    && id.is("id")
                    && second.is("id")
            }
            _ => false,
        },
        _ => false,
    }
}

/// Whether a file has one updater, which lets go of a field of the query root.
fn is_todos_stale(rules: &Rules) -> bool {
    match rules.updaters.as_slice() {
        [updater] => match &updater.action {
            Action::InvalidateField(field) => {
                updater.on.is("Mutation.setDone")
                    && updater.named.is("Query")
                    && updater.id.is_none()
                    && field.is("todos")
            }
            _ => false,
        },
        _ => false,
    }
}

#[test]
fn rules_as_they_stand(rt: HostRuntime) -> Result<(), Fail> {
    let alloc = rt.alloc();
    let schema = schema(alloc, TYPES)?;
    let text = format!(in alloc; "{DONE_AT_ONCE}{TODOS_STALE}")?;
    let rules = read_rules(alloc, &schema, text.as_bytes()).map_err(|_| "refused")?;
    assert!(rt; is_done_at_once(&rules));
    assert!(rt; is_todos_stale(&rules));
    assert!(rt; rules.keys.is_empty());
    Ok(())
}
