//! The selection sets of a document in the order of their numbers, and which of them get `__typename` at
//! their front.

ghost use Rattle.std.specs.Prelude.{◌≡◌, ◌++◌, IfOk, OnOk, map};
ghost use Rattle.std.specs.Option.{option_map};
ghost use Rattle.std.specs.List.{flat_map};
ghost use Rattle.execution_model.specs.Fronts as spec;
ghost use Rattle.execution_model.specs.Fronts.{OfFragment};
ghost use Rattle.op_keys.specs.FrontFolds as folds;
ghost use Rattle.op_keys.specs.Owners.{owner_of};

use crate::front_rule::{has_subscription, is_fronted};
use crate::owner::Owner;
use gql_model::{Definition, Document, Field, InlineFragment, Selection, SelectionSet};
use schema_model::{Schema, TypeId};
use site_walk::{composite_named, field_parent, inline_parent, root_parent};
use std::alloc::Global;
use text_types::{Items, Memory};

/// For each selection set of a document, by its number, whether [`with_typename`](crate::with_typename)
/// puts `__typename` at its front.
pub fn fronts(alloc: Global, schema: &Schema, document: &Document) -> Result<Items<bool>, Memory>
    ensures { IfOk result (λ fronts. fronts ≡ spec.fronts_of schema.now document.now) }
{
    let lister = Lister {
        schema,
        subscribes: has_subscription(document),
    };
    let mut fronts = Items::new(alloc);
    'definitions: for definition in document.definitions.as_slice() {
        lister.definition(&mut fronts, definition)?;
    }
    Ok(fronts)
}

/// What the sets of a document are judged under: the schema, and whether the document has a
/// subscription.
#[derive(Drop)]
struct Lister<'a> {
    schema: &'a Schema,
    subscribes: bool,
}

impl<'a> Lister<'a> {
    fn definition(&self, fronts: &mut Items<bool>, definition: &Definition) -> Result<(), Memory>
        ensures { OnOk result (fronts.new ≡ fronts.old ++ spec.definition_fronts self.now.schema.now self.now.subscribes definition.now) }
    {
        match definition {
            Definition::Operation(operation) => {
                let parent = root_parent(self.schema, operation.kind);
                self.set(fronts, &operation.selection_set, Owner::Operation, parent)
            }
            Definition::Fragment(fragment) => {
                let parent = composite_named(self.schema, &fragment.type_condition.text);
                self.set(fronts, &fragment.selection_set, Owner::Fragment, parent)
            }
            Definition::TypeSystem(_) => Ok(()),
        }
    }

    #[cycle(list)]
    #[tactic(auto, using(crate::proofs::FrontFolds::fronts_in_set_out))]
    fn set(
        &self,
        fronts: &mut Items<bool>,
        set: &SelectionSet,
        owner: Owner,
        parent: Option<TypeId>,
    ) -> Result<(), Memory>
        ensures { OnOk result (fronts.new ≡ fronts.old ++ spec.fronts_in_set self.now.schema.now self.now.subscribes set.now (owner_of owner) parent) }
    {
        let selections = set.selections.as_slice();
        let fronted = is_fronted(self.schema, self.subscribes, owner, parent, selections);
        fronts.push(fronted)?;
        self.selections(fronts, selections, parent)
    }

    #[cycle(list)]
    fn selections(
        &self,
        fronts: &mut Items<bool>,
        selections: &[Selection],
        parent: Option<TypeId>,
    ) -> Result<(), Memory>
        ensures { OnOk result (fronts.new ≡ fronts.old ++ flat_map (λ s. s.inside parent) (map (spec.fronts_in_selection self.now.schema.now self.now.subscribes) selections.now)) }
    {
        'selections: for selection in selections {
            self.selection(fronts, selection, parent)?;
        }
        Ok(())
    }

    #[cycle(list)]
    #[tactic(auto, using(crate::proofs::FrontFolds::fronts_in_selection_out))]
    fn selection(
        &self,
        fronts: &mut Items<bool>,
        selection: &Selection,
        parent: Option<TypeId>,
    ) -> Result<(), Memory>
        ensures { OnOk result (fronts.new ≡ fronts.old ++ (spec.fronts_in_selection self.now.schema.now self.now.subscribes selection.now).inside parent) }
    {
        match selection {
            Selection::Field(field) => self.field(fronts, field, parent),
            Selection::Spread(_) => Ok(()),
            Selection::Inline(fragment) => self.inline(fronts, fragment, parent),
        }
    }

    #[cycle(list)]
    #[tactic(auto, using(crate::proofs::FrontFolds::fronts_in_field_out))]
    fn field(
        &self,
        fronts: &mut Items<bool>,
        field: &Field,
        parent: Option<TypeId>,
    ) -> Result<(), Memory>
        ensures { OnOk result (fronts.new ≡ fronts.old ++ (folds.fronts_in_field self.now.schema.now self.now.subscribes field.now).inside parent) }
    {
        let below = field_parent(self.schema, parent, &field.name.text);
        self.set_of_field(fronts, &field.selection_set, below)
    }

    #[cycle(list)]
    fn set_of_field(
        &self,
        fronts: &mut Items<bool>,
        set: &Option<SelectionSet>,
        parent: Option<TypeId>,
    ) -> Result<(), Memory>
        ensures { OnOk result (fronts.new ≡ fronts.old ++ spec.fronts_below (option_map (spec.fronts_in_set self.now.schema.now self.now.subscribes) set.now) parent) }
    {
        match set {
            Some(set) => self.set(fronts, set, Owner::Field, parent),
            None => Ok(()),
        }
    }

    #[cycle(list)]
    #[tactic(auto, using(crate::proofs::FrontFolds::fronts_in_inline_out))]
    fn inline(
        &self,
        fronts: &mut Items<bool>,
        fragment: &InlineFragment,
        parent: Option<TypeId>,
    ) -> Result<(), Memory>
        ensures { OnOk result (fronts.new ≡ fronts.old ++ folds.fronts_in_inline self.now.schema.now self.now.subscribes fragment.now OfFragment parent) }
    {
        let below = inline_parent(self.schema, parent, &fragment.type_condition);
        self.set(fronts, &fragment.selection_set, Owner::Fragment, below)
    }
}
