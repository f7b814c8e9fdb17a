ghost use Rattle.std.specs.Prelude.{◌≡◌, [], true, IfOk};
ghost use Rattle.check_model.specs.Directives.{condition, condition_arguments};
ghost use Rattle.check_model.specs.FieldTypes.{typename_type};
ghost use Rattle.gql_model.specs.declared.type_ref.TypeRef.{roll-TypeRef};
ghost use Rattle.gql_model.specs.declared.type_ref.TypeRef.TheOpen.{TypeRef-F};

use gql_model::{TypeNode, TypeRef};
use gql_tokens::Place;
use schema_model::{InputValue, Table};
use std::alloc::Global;
use text_types::{Memory, Text};

/// What each schema has without saying it: the argument of `@skip` and `@include`, and the type of
/// `__typename`.
#[derive(Drop)]
pub struct BuiltIn {
    pub condition: Table<InputValue>,
    pub nothing: Table<InputValue>,
    pub typename: TypeRef,
    ghost condition_is: { condition ≡ condition_arguments },
    ghost nothing_is: { nothing ≡ [] },
    ghost typename_is: { typename ≡ typename_type },
}

impl BuiltIn {
    /// The one error is want of memory.
    pub fn new(alloc: Global) -> Result<BuiltIn, Memory> {
        Ok(BuiltIn {
            condition: Table::new(alloc).put(Text::from_str(alloc, "if")?, condition(alloc)?)?,
            nothing: Table::new(alloc),
            typename: non_null(alloc, "String")?,
        })
    }
}

fn condition(alloc: Global) -> Result<InputValue, Memory>
    ensures { IfOk result (λ input. input ≡ condition) }
{
    Ok(InputValue {
        line: 0,
        input_type: TypeNode {
            place: Place { row: 0, column: 0 },
            type_ref: non_null(alloc, "Boolean")?,
        },
        default: None,
    })
}

fn non_null(alloc: Global, name: &str) -> Result<TypeRef, Memory>
    ensures { IfOk result (λ t. t ≡ roll-TypeRef (TypeRef-F.Named name.now true)) }
{
    Ok(TypeRef::Named {
        named: Text::from_str(alloc, name)?,
        non_null: true,
    })
}
