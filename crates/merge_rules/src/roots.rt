ghost use Rattle.std.specs.Prelude.{◌≡◌, [], ◌∷◌, not, false};
ghost use Rattle.std.specs.List.{fold, list_any};
ghost use Rattle.std.specs.Option.{option_map_or};
ghost use Rattle.check_model.specs.Executables.{operation_is};
ghost use Rattle.check_model.specs.Fields.{response_key};
ghost use Rattle.check_model.specs.Followed.{followed_within};
ghost use Rattle.check_model.specs.RootFields.{applies, applies_inline, fragment_root, root_fields, root_fields_of_set, is_single, is_subscription, has_other_root_fields, breaks_single_root_field};
ghost use Rattle.schema_model.specs.Schemas.{root_of};
ghost use Rattle.merge_rules.specs.Roots.{keys_of, noted, start, is_one, root_fields_of_selection, root_fields_of_inline};
ghost use Rattle.gql_model.specs.declared.selection.Field.{out-Field};

use crate::keys::response_key;
use gql_model::{
    Definition, Field, InlineFragment, Name, Operation, OperationKind, Selection, SelectionSet,
};
use schema_model::{Schema, TypeId};
use site_walk::{Scope, is_typename};
use text_types::Text;

/// Single Root Field (GraphQL October 2021, 5.2.3.1): whether some subscription's root set, with `@skip` and
/// `@include` ignored, hasn't exactly one response key, or that key's field is `__typename`.
pub fn breaks_single_root_field(scope: &Scope<'_>) -> bool
    ensures { result ≡ breaks_single_root_field scope.now.schema.now scope.now.document.now }
{
    some_has_other(scope, scope.document.definitions.as_slice())
}

fn some_has_other<'a>(scope: &Scope<'a>, definitions: &'a [Definition]) -> bool
    ensures { result ≡ list_any (operation_is (has_other_root_fields scope.now.schema.now scope.now.document.now)) definitions.now }
{
    definitions
        .iter()
        .any(|definition| definition_has_other(scope, definition))
}

fn definition_has_other<'a>(scope: &Scope<'a>, definition: &'a Definition) -> bool
    ensures { result ≡ operation_is (has_other_root_fields scope.now.schema.now scope.now.document.now) definition.now }
{
    match definition {
        Definition::Operation(operation) => has_other_root_fields(scope, operation),
        _ => false,
    }
}

fn has_other_root_fields<'a>(scope: &Scope<'a>, operation: &'a Operation) -> bool
    ensures { result ≡ has_other_root_fields scope.now.schema.now scope.now.document.now operation.now }
{
    is_subscription(operation.kind) && has_other_on_root(scope, operation)
}

fn is_subscription(kind: OperationKind) -> bool
    ensures { result ≡ is_subscription kind }
{
    matches!(kind, OperationKind::Subscription)
}

fn has_other_on_root<'a>(scope: &Scope<'a>, operation: &'a Operation) -> bool
    ensures { result ≡ option_map_or (λ root. not (is_single (root_fields scope.now.schema.now scope.now.document.now root operation.now))) (root_of scope.now.schema.now operation.now.kind) false }
{
    match scope.schema.root(operation.kind) {
        Some(root) => !is_single(scope, root, operation),
        None => false,
    }
}

fn is_single<'a>(scope: &Scope<'a>, object: TypeId, operation: &'a Operation) -> bool
    ensures { result ≡ is_single (root_fields scope.now.schema.now scope.now.document.now object operation.now) }
{
    let fuel = scope.document.definitions.len();
    let keys = visit_set(
        scope,
        object,
        fuel,
        &operation.selection_set,
        RootKeys::new(),
    );
    keys.is_single()
}

/// The first root field so far, and whether all have its response key.
#[derive(Clone, Copy)]
pub(crate) struct RootKeys<'a> {
    first: Option<RootKey<'a>>,
    same: bool,
}

#[derive(Clone, Copy)]
struct RootKey<'a> {
    key: &'a Text,
    name: &'a Text,
}

impl<'a> RootKeys<'a> {
    fn new() -> RootKeys<'a>
        ensures { keys_of result ≡ start }
    {
        RootKeys {
            first: None,
            same: true,
        }
    }

    fn with(self, key: &'a Text, name: &'a Text) -> RootKeys<'a>
        ensures { keys_of result ≡ noted (keys_of self.entry) (key.now, name.now) }
    {
        match self.first {
            Some(first) => RootKeys {
                first: Some(first),
                same: self.same && first.key == key,
            },
            None => RootKeys {
                first: Some(RootKey { key, name }),
                same: self.same,
            },
        }
    }

    fn is_single(self) -> bool
        ensures { result ≡ is_one (keys_of self.entry) }
    {
        match self.first {
            Some(first) => self.same && !is_typename(first.name),
            None => false,
        }
    }
}

fn applies(schema: &Schema, object: TypeId, condition: &Text) -> bool
    ensures { result ≡ applies schema.now object condition.now }
{
    match schema.type_named(condition) {
        Some(named) => schema.is_possible(object, named),
        None => false,
    }
}

fn applies_inline(schema: &Schema, object: TypeId, condition: &Option<Name>) -> bool
    ensures { result ≡ applies_inline schema.now object condition.now }
{
    match condition {
        Some(condition) => applies(schema, object, &condition.text),
        None => true,
    }
}

/// Notes the fields of a set, with the fragments that apply to objects of a type followed, at most so deep.
#[cycle(roots)]
fn visit_set<'a>(
    scope: &Scope<'a>,
    object: TypeId,
    fuel: usize,
    set: &'a SelectionSet,
    keys: RootKeys<'a>,
) -> RootKeys<'a>
    ensures { keys_of result ≡ fold noted (keys_of keys.entry) (root_fields_of_set scope.now.schema.now object (followed_within fuel [] (fragment_root scope.now.schema.now object) scope.now.document.now) set.now) }
{
    let mut keys = keys;
    'selections: for selection in set.selections.as_slice() {
        keys = visit_selection(scope, object, fuel, selection, keys);
    }
    keys
}

#[cycle(roots)]
fn visit_selection<'a>(
    scope: &Scope<'a>,
    object: TypeId,
    fuel: usize,
    selection: &'a Selection,
    keys: RootKeys<'a>,
) -> RootKeys<'a>
    ensures { keys_of result ≡ fold noted (keys_of keys.entry) (root_fields_of_selection scope.now.schema.now object (followed_within fuel [] (fragment_root scope.now.schema.now object) scope.now.document.now) selection.now) }
{
    match selection {
        Selection::Field(field) => visit_field(field, keys),
        Selection::Spread(spread) => visit_fragment(scope, object, fuel, &spread.name.text, keys),
        Selection::Inline(fragment) => visit_inline(scope, object, fuel, fragment, keys),
    }
}

fn visit_field<'a>(field: &'a Field, keys: RootKeys<'a>) -> RootKeys<'a>
    ensures { let field_parts = out-Field field.now in keys_of result ≡ fold noted (keys_of keys.entry) ((response_key field_parts.alias field_parts.name.text, field_parts.name.text) ∷ []) }
{
    keys.with(
        response_key(&field.alias, &field.name.text),
        &field.name.text,
    )
}

#[cycle(roots)]
fn visit_inline<'a>(
    scope: &Scope<'a>,
    object: TypeId,
    fuel: usize,
    fragment: &'a InlineFragment,
    keys: RootKeys<'a>,
) -> RootKeys<'a>
    ensures { keys_of result ≡ fold noted (keys_of keys.entry) (root_fields_of_inline scope.now.schema.now object (followed_within fuel [] (fragment_root scope.now.schema.now object) scope.now.document.now) fragment.now) }
{
    if applies_inline(scope.schema, object, &fragment.type_condition) {
        visit_set(scope, object, fuel, &fragment.selection_set, keys)
    } else {
        keys
    }
}

#[cycle(roots)]
fn visit_fragment<'a>(
    scope: &Scope<'a>,
    object: TypeId,
    fuel: usize,
    name: &Text,
    keys: RootKeys<'a>,
) -> RootKeys<'a>
    ensures { keys_of result ≡ fold noted (keys_of keys.entry) (followed_within fuel [] (fragment_root scope.now.schema.now object) scope.now.document.now name.now) }
{
    if fuel == 0 {
        return keys;
    }
    let Some(fragment) = scope.fragment(name) else {
        return keys;
    };
    if applies(scope.schema, object, &fragment.type_condition.text) {
        visit_set(scope, object, fuel - 1, &fragment.selection_set, keys)
    } else {
        keys
    }
}
