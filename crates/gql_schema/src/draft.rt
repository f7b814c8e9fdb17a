ghost use Rattle.std.specs.Prelude.{◌≡◌, List, [], ◌∷◌, ◌++◌, None, Some, IfOk, map};
ghost use Rattle.std.specs.List.{fold, flat_map};
ghost use Rattle.std.specs.Option.{option_or};
ghost use Rattle.schema_model.specs.Tables.{put, tabled};
ghost use Rattle.gql_schema.specs.Ignored.{scalars};
ghost use Rattle.gql_schema.specs.Meaning.{type_entries, types_of, directive_of, directive_entries, scalar_entry, schema_roots, typed};

use crate::build::{inputs, names, parts, values};
use crate::roots::stated_roots;
use gql_model::{DirectiveDefinition, Name, ObjectDefinition, TypeSystemForm};
use schema_model::{RootNames, SchemaDirective, SchemaType, Table, TypeForm};
use std::alloc::Global;
use text_types::{Memory, Text};

/// What the definitions taken in so far make.
#[derive(Drop)]
pub(crate) struct Draft {
    pub(crate) types: Table<SchemaType>,
    pub(crate) directives: Table<SchemaDirective>,
    pub(crate) roots: Option<RootNames>,
}

impl Draft {
    /// The built-in scalars alone.
    pub(crate) fn new(alloc: Global) -> Result<Draft, Memory>
        ensures types { IfOk result (λ draft. draft.types ≡ types_of []) }
        ensures directives { IfOk result (λ draft. draft.directives ≡ []) }
        ensures roots { IfOk result (λ draft. draft.roots ≡ None) }
    {
        Ok(Draft {
            types: scalars(alloc)?,
            directives: Table::new(alloc),
            roots: None,
        })
    }

    /// Takes in one definition more.
    pub(crate) fn with(self, alloc: Global, form: TypeSystemForm) -> Result<Draft, Memory>
        ensures types { IfOk result (λ draft. draft.types ≡ fold put self.types (type_entries form)) }
        ensures directives { IfOk result (λ draft. draft.directives ≡ fold put self.directives (directive_entries form)) }
        ensures roots { IfOk result (λ draft. draft.roots ≡ option_or self.roots (schema_roots form)) }
    {
        match form {
            TypeSystemForm::Schema(d) => Ok(Draft {
                types: self.types,
                directives: self.directives,
                roots: stated_roots(self.roots, d.roots),
            }),
            TypeSystemForm::Directive(d) => self.with_directive(alloc, d),
            TypeSystemForm::Scalar(d) => self.with_type(d.name, TypeForm::Scalar),
            TypeSystemForm::Object(d) => self.with_object(alloc, d),
            TypeSystemForm::Interface(d) => self.with_interface(alloc, d),
            TypeSystemForm::Union(d) => {
                let form = TypeForm::Union(names(alloc, d.members)?);
                self.with_type(d.name, form)
            }
            TypeSystemForm::Enum(d) => {
                let form = TypeForm::Enum(values(alloc, d.values)?);
                self.with_type(d.name, form)
            }
            TypeSystemForm::Input(d) => {
                let form = TypeForm::Input(inputs(alloc, d.fields)?);
                self.with_type(d.name, form)
            }
        }
    }

    fn with_object(self, alloc: Global, d: ObjectDefinition) -> Result<Draft, Memory>
        ensures types { IfOk result (λ draft. draft.types ≡ fold put self.types (type_entries (TypeSystemForm.Object d))) }
        ensures directives { IfOk result (λ draft. draft.directives ≡ self.directives) }
        ensures roots { IfOk result (λ draft. draft.roots ≡ self.roots) }
    {
        let form = TypeForm::Object(parts(alloc, d.interfaces, d.fields)?);
        self.with_type(d.name, form)
    }

    fn with_interface(self, alloc: Global, d: ObjectDefinition) -> Result<Draft, Memory>
        ensures types { IfOk result (λ draft. draft.types ≡ fold put self.types (type_entries (TypeSystemForm.Interface d))) }
        ensures directives { IfOk result (λ draft. draft.directives ≡ self.directives) }
        ensures roots { IfOk result (λ draft. draft.roots ≡ self.roots) }
    {
        let form = TypeForm::Interface(parts(alloc, d.interfaces, d.fields)?);
        self.with_type(d.name, form)
    }

    fn with_type(self, name: Name, form: TypeForm) -> Result<Draft, Memory>
        ensures types { IfOk result (λ draft. draft.types ≡ put self.types (typed name form)) }
        ensures directives { IfOk result (λ draft. draft.directives ≡ self.directives) }
        ensures roots { IfOk result (λ draft. draft.roots ≡ self.roots) }
    {
        let line = name.place.row;
        Ok(Draft {
            types: self.types.put(name.text, SchemaType { line, form })?,
            directives: self.directives,
            roots: self.roots,
        })
    }

    fn with_directive(self, alloc: Global, d: DirectiveDefinition) -> Result<Draft, Memory>
        ensures types { IfOk result (λ draft. draft.types ≡ self.types) }
        ensures directives { IfOk result (λ draft. draft.directives ≡ put self.directives (d.name.text, directive_of d)) }
        ensures roots { IfOk result (λ draft. draft.roots ≡ self.roots) }
    {
        let directive = SchemaDirective {
            line: d.name.place.row,
            arguments: inputs(alloc, d.arguments)?,
            repeatable: d.repeatable,
            locations: d.locations,
        };
        Ok(Draft {
            types: self.types,
            directives: self.directives.put(d.name.text, directive)?,
            roots: self.roots,
        })
    }
}

/// The built-in scalars.
fn scalars(alloc: Global) -> Result<Table<SchemaType>, Memory>
    ensures { IfOk result (λ types. types ≡ tabled (map scalar_entry scalars)) }
{
    let types = with_scalar(alloc, Table::new(alloc), "Int")?;
    let types = with_scalar(alloc, types, "Float")?;
    let types = with_scalar(alloc, types, "String")?;
    let types = with_scalar(alloc, types, "Boolean")?;
    with_scalar(alloc, types, "ID")
}

fn with_scalar(
    alloc: Global,
    types: Table<SchemaType>,
    name: &str,
) -> Result<Table<SchemaType>, Memory>
    ensures { IfOk result (λ more. more ≡ put types (scalar_entry name.now)) }
{
    let scalar = SchemaType {
        line: 0,
        form: TypeForm::Scalar,
    };
    types.put(Text::from_str(alloc, name)?, scalar)
}
