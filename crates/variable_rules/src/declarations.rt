ghost use Rattle.std.specs.Prelude.{◌≡◌, IfOk, false, map};
ghost use Rattle.std.specs.List.{list_any};
ghost use Rattle.std.specs.Option.{option_map_or};
ghost use Rattle.schema_defaults.specs.Seen.{Saw};
ghost use Rattle.schema_rules.specs.Misplaced.{is_input};
ghost use Rattle.check_model.specs.Executables.{operation_is};
ghost use Rattle.check_model.specs.Repeated.{at_no_line, stands_twice};
ghost use Rattle.check_model.specs.VariableRules.{variable_names, is_input_type, has_no_input_type, breaks_variable_uniqueness, breaks_variables_are_input_types};

use gql_model::{Definition, Document, Operation, TypeRef, VariableDefinition};
use schema_defaults::Seen;
use schema_model::{Schema, TypeForm};
use schema_rules::named_type;
use std::alloc::Global;
use text_types::Memory;

/// Variable Uniqueness (GraphQL October 2021, 5.8.1): whether an operation declares a name twice.
pub fn breaks_variable_uniqueness(alloc: Global, document: &Document) -> Result<bool, Memory>
    ensures { IfOk result (λ b. b ≡ breaks_variable_uniqueness document.now) }
{
    'definitions: for definition in document.definitions.as_slice() {
        if declares_twice(alloc, definition)? {
            return Ok(true);
        }
    }
    Ok(false)
}

fn declares_twice(alloc: Global, definition: &Definition) -> Result<bool, Memory>
    ensures { IfOk result (λ b. b ≡ operation_is (λ o. stands_twice (variable_names o)) definition.now) }
{
    match definition {
        Definition::Operation(operation) => has_variable_twice(alloc, operation),
        _ => Ok(false),
    }
}

fn has_variable_twice(alloc: Global, operation: &Operation) -> Result<bool, Memory>
    ensures { IfOk result (λ b. b ≡ stands_twice (variable_names operation.now)) }
{
    let names = names(alloc, operation.variables.as_slice())?;
    Ok(names.repeated_line().is_some())
}

fn names(alloc: Global, variables: &[VariableDefinition]) -> Result<Seen, Memory>
    ensures { IfOk result (λ seen. Saw seen (map at_no_line (map (λ v. v.name.text) variables.now))) }
{
    let mut seen = Seen::new(alloc);
    'variables: for variable in variables {
        seen = seen.note(&variable.name.text, 0)?;
    }
    Ok(seen)
}

/// Variables Are Input Types (GraphQL October 2021, 5.8.2): whether a declared type isn't a scalar, an enum
/// or an input object under its lists.
pub fn breaks_variables_are_input_types(schema: &Schema, document: &Document) -> bool
    ensures { result ≡ breaks_variables_are_input_types schema.now document.now }
{
    some_declares_other_types(schema, document.definitions.as_slice())
}

fn some_declares_other_types(schema: &Schema, definitions: &[Definition]) -> bool
    ensures { result ≡ list_any (operation_is (λ o. list_any (has_no_input_type schema.now) o.variables)) definitions.now }
{
    definitions
        .iter()
        .any(|definition| declares_other_types(schema, definition))
}

fn declares_other_types(schema: &Schema, definition: &Definition) -> bool
    ensures { result ≡ operation_is (λ o. list_any (has_no_input_type schema.now) o.variables) definition.now }
{
    match definition {
        Definition::Operation(operation) => {
            some_has_no_input_type(schema, operation.variables.as_slice())
        }
        _ => false,
    }
}

fn some_has_no_input_type(schema: &Schema, variables: &[VariableDefinition]) -> bool
    ensures { result ≡ list_any (has_no_input_type schema.now) variables.now }
{
    variables
        .iter()
        .any(|variable| has_no_input_type(schema, variable))
}

fn has_no_input_type(schema: &Schema, variable: &VariableDefinition) -> bool
    ensures { result ≡ has_no_input_type schema.now variable.now }
{
    !is_input_type(schema, &variable.variable_type.type_ref)
}

fn is_input_type(schema: &Schema, type_ref: &TypeRef) -> bool
    ensures { result ≡ is_input_type schema.now type_ref.now }
{
    match schema.types.get(named_type(type_ref)) {
        Some(found) => is_input(&found.form),
        None => false,
    }
}

fn is_input(form: &TypeForm) -> bool
    ensures { result ≡ is_input form.now }
{
    matches!(
        form,
        TypeForm::Scalar | TypeForm::Enum(_) | TypeForm::Input(_)
    )
}
