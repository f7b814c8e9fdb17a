ghost use Rattle.std.specs.Prelude.{◌≡◌, OnOk};
ghost use Rattle.std.specs.List.{fold, flat_map};
ghost use Rattle.check_model.specs.Directives.{operation_location};
ghost use Rattle.check_model.specs.Sites.{default_sites, variable_sites, operation_head_sites, operation_sites, fragment_head_sites, fragment_sites, definition_sites, sites};

use crate::scope::Scope;
use crate::site::{Site, Visitor};
use crate::types::{composite_named, root_parent};
use check_model::Location;
use gql_model::{
    Definition, Fragment, Literal, Operation, OperationKind, TypeRef, VariableDefinition,
};
use text_types::Memory;

impl<'a> Scope<'a> {
    /// Visits all that stands in the document, in document order.
    pub fn visit<V: Visitor>(&self, visitor: &mut V) -> Result<(), Memory>
        ensures { OnOk result (visitor.new ≡ fold V.step visitor.old (sites self.now.schema.now self.now.document.now)) }
    {
        'definitions: for definition in self.document.definitions.as_slice() {
            self.visit_definition(visitor, definition)?;
        }
        Ok(())
    }

    /// Visits all that stands in a definition.
    pub fn visit_definition<V: Visitor>(
        &self,
        visitor: &mut V,
        definition: &Definition,
    ) -> Result<(), Memory>
        ensures { OnOk result (visitor.new ≡ fold V.step visitor.old (definition_sites self.now.schema.now self.now.document.now definition.now)) }
    {
        match definition {
            Definition::Operation(operation) => self.visit_operation(visitor, operation),
            Definition::Fragment(fragment) => self.visit_fragment(visitor, fragment),
            Definition::TypeSystem(_) => Ok(()),
        }
    }

    fn visit_operation<V: Visitor>(
        &self,
        visitor: &mut V,
        operation: &Operation,
    ) -> Result<(), Memory>
        ensures { OnOk result (visitor.new ≡ fold V.step visitor.old (operation_sites self.now.schema.now self.now.document.now operation.now)) }
    {
        self.visit_operation_head(visitor, operation)?;
        let parent = root_parent(self.schema, operation.kind);
        self.visit_set(visitor, &operation.selection_set, parent)
    }

    fn visit_operation_head<V: Visitor>(
        &self,
        visitor: &mut V,
        operation: &Operation,
    ) -> Result<(), Memory>
        ensures { OnOk result (visitor.new ≡ fold V.step visitor.old (operation_head_sites self.now.schema.now operation.now)) }
    {
        let location = operation_location(operation.kind);
        self.visit_directives(visitor, location, operation.directives.as_slice())?;
        self.visit_variables(visitor, operation.variables.as_slice())
    }

    fn visit_variables<V: Visitor>(
        &self,
        visitor: &mut V,
        variables: &[VariableDefinition],
    ) -> Result<(), Memory>
        ensures { OnOk result (visitor.new ≡ fold V.step visitor.old (flat_map (variable_sites self.now.schema.now) variables.now)) }
    {
        'variables: for variable in variables {
            self.visit_variable(visitor, variable)?;
        }
        Ok(())
    }

    fn visit_variable<V: Visitor>(
        &self,
        visitor: &mut V,
        variable: &VariableDefinition,
    ) -> Result<(), Memory>
        ensures { OnOk result (visitor.new ≡ fold V.step visitor.old (variable_sites self.now.schema.now variable.now)) }
    {
        visit_default(visitor, &variable.variable_type.type_ref, &variable.default)?;
        let directives = variable.directives.as_slice();
        self.visit_directives(visitor, Location::VariableDefinition, directives)
    }

    fn visit_fragment<V: Visitor>(&self, visitor: &mut V, fragment: &Fragment) -> Result<(), Memory>
        ensures { OnOk result (visitor.new ≡ fold V.step visitor.old (fragment_sites self.now.schema.now self.now.document.now fragment.now)) }
    {
        self.visit_fragment_head(visitor, fragment)?;
        let parent = composite_named(self.schema, &fragment.type_condition.text);
        self.visit_set(visitor, &fragment.selection_set, parent)
    }

    fn visit_fragment_head<V: Visitor>(
        &self,
        visitor: &mut V,
        fragment: &Fragment,
    ) -> Result<(), Memory>
        ensures { OnOk result (visitor.new ≡ fold V.step visitor.old (fragment_head_sites self.now.schema.now fragment.now)) }
    {
        visitor.visit(Site::Condition(&fragment.type_condition.text))?;
        let directives = fragment.directives.as_slice();
        self.visit_directives(visitor, Location::FragmentDefinition, directives)
    }
}

fn visit_default<V: Visitor>(
    visitor: &mut V,
    wanted: &TypeRef,
    default: &Option<Literal>,
) -> Result<(), Memory>
    ensures { OnOk result (visitor.new ≡ fold V.step visitor.old (default_sites wanted.now default.now)) }
{
    match default {
        Some(literal) => visitor.visit(Site::Default { wanted, literal }),
        None => Ok(()),
    }
}

fn operation_location(kind: OperationKind) -> Location
    ensures { result ≡ operation_location kind }
{
    match kind {
        OperationKind::Query => Location::Query,
        OperationKind::Mutation => Location::Mutation,
        OperationKind::Subscription => Location::Subscription,
    }
}
