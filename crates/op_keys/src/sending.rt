//! The document that is sent for a client's document: `__typename` is put at the front of selection sets.

ghost use Rattle.std.specs.Prelude.{◌≡◌, [], IfOk, map};
ghost use Rattle.std.specs.Option.{option_map};
ghost use Rattle.execution_model.specs.Fronts.{OfField};
ghost use Rattle.op_keys.specs.Sent as spec;
ghost use Rattle.op_keys.specs.Owners.{owner_of};

use crate::front_rule::{has_subscription, is_fronted};
use crate::owner::Owner;
use gql_copying::CopyIn;
use gql_model::{
    Definition, Document, Field, Fragment, InlineFragment, Name, Operation, Selection, SelectionSet,
};
use gql_tokens::Place;
use schema_model::{Schema, TypeId};
use site_walk::{composite_named, field_parent, inline_parent, root_parent};
use std::alloc::Global;
use text_types::{Items, Memory, Text};

/// The document that is sent for a client's document.
pub fn with_typename(
    alloc: Global,
    schema: &Schema,
    document: &Document,
) -> Result<Document, Memory>
    ensures { IfOk result (λ sent. sent ≡ spec.with_typename schema.now document.now) }
{
    let sender = Sender {
        schema,
        subscribes: has_subscription(document),
    };
    Ok(Document {
        definitions: sender.definitions(alloc, document.definitions.as_slice())?,
    })
}

/// What a document is sent under: the schema, and whether the document has a subscription.
#[derive(Drop)]
struct Sender<'a> {
    schema: &'a Schema,
    subscribes: bool,
}

impl<'a> Sender<'a> {
    fn definitions(
        &self,
        alloc: Global,
        definitions: &[Definition],
    ) -> Result<Items<Definition>, Memory>
        ensures { IfOk result (λ sent. sent ≡ map (spec.sent_definition self.now.schema.now self.now.subscribes) definitions.now) }
    {
        let mut sent = Items::new(alloc);
        'definitions: for definition in definitions {
            sent.push(self.definition(alloc, definition)?)?;
        }
        Ok(sent)
    }

    fn definition(&self, alloc: Global, definition: &Definition) -> Result<Definition, Memory>
        ensures { IfOk result (λ sent. sent ≡ spec.sent_definition self.now.schema.now self.now.subscribes definition.now) }
    {
        match definition {
            Definition::Operation(operation) => {
                Ok(Definition::Operation(self.operation(alloc, operation)?))
            }
            Definition::Fragment(fragment) => {
                Ok(Definition::Fragment(self.fragment(alloc, fragment)?))
            }
            Definition::TypeSystem(definition) => {
                Ok(Definition::TypeSystem(definition.copy_in(alloc)?))
            }
        }
    }

    fn operation(&self, alloc: Global, operation: &Operation) -> Result<Operation, Memory>
        ensures { IfOk result (λ sent. sent ≡ spec.sent_operation self.now.schema.now self.now.subscribes operation.now) }
    {
        let parent = root_parent(self.schema, operation.kind);
        Ok(Operation {
            place: operation.place,
            kind: operation.kind,
            name: operation.name.copy_in(alloc)?,
            variables: operation.variables.copy_in(alloc)?,
            directives: operation.directives.copy_in(alloc)?,
            selection_set: self.set(alloc, &operation.selection_set, Owner::Operation, parent)?,
        })
    }

    fn fragment(&self, alloc: Global, fragment: &Fragment) -> Result<Fragment, Memory>
        ensures { IfOk result (λ sent. sent ≡ spec.sent_fragment self.now.schema.now self.now.subscribes fragment.now) }
    {
        let parent = composite_named(self.schema, &fragment.type_condition.text);
        Ok(Fragment {
            place: fragment.place,
            name: fragment.name.copy_in(alloc)?,
            type_condition: fragment.type_condition.copy_in(alloc)?,
            directives: fragment.directives.copy_in(alloc)?,
            selection_set: self.set(alloc, &fragment.selection_set, Owner::Fragment, parent)?,
        })
    }

    #[cycle(send)]
    #[tactic(auto, using(crate::proofs::SentFolds::sent_set_out))]
    fn set(
        &self,
        alloc: Global,
        set: &SelectionSet,
        owner: Owner,
        parent: Option<TypeId>,
    ) -> Result<SelectionSet, Memory>
        ensures { IfOk result (λ sent. sent ≡ spec.sent_set self.now.schema.now self.now.subscribes set.now (owner_of owner) parent) }
    {
        let selections = set.selections.as_slice();
        let fronted = is_fronted(self.schema, self.subscribes, owner, parent, selections);
        Ok(SelectionSet {
            place: set.place,
            selections: self.selections(alloc, fronted, set.place, selections, parent)?,
        })
    }

    /// The selections of a set that stands at a place, behind what is put at their front.
    #[cycle(send)]
    #[tactic(auto, using(crate::proofs::SentFolds::front_more))]
    fn selections(
        &self,
        alloc: Global,
        fronted: bool,
        place: Place,
        selections: &[Selection],
        parent: Option<TypeId>,
    ) -> Result<Items<Selection>, Memory>
        ensures { IfOk result (λ sent. sent ≡ spec.with_front fronted place (map (λ s. s.sent parent) (map (spec.sent_selection self.now.schema.now self.now.subscribes) selections.now))) }
    {
        let mut sent = front(alloc, fronted, place)?;
        'selections: for selection in selections {
            sent.push(self.selection(alloc, selection, parent)?)?;
        }
        Ok(sent)
    }

    #[cycle(send)]
    #[tactic(auto, using(crate::proofs::SentFolds::sent_selection_out))]
    fn selection(
        &self,
        alloc: Global,
        selection: &Selection,
        parent: Option<TypeId>,
    ) -> Result<Selection, Memory>
        ensures { IfOk result (λ sent. sent ≡ (spec.sent_selection self.now.schema.now self.now.subscribes selection.now).sent parent) }
    {
        match selection {
            Selection::Field(field) => Ok(Selection::Field(self.field(alloc, field, parent)?)),
            Selection::Spread(spread) => Ok(Selection::Spread(spread.copy_in(alloc)?)),
            Selection::Inline(fragment) => {
                Ok(Selection::Inline(self.inline(alloc, fragment, parent)?))
            }
        }
    }

    #[cycle(send)]
    #[tactic(auto, using(crate::proofs::SentFolds::sent_field_out))]
    fn field(&self, alloc: Global, field: &Field, parent: Option<TypeId>) -> Result<Field, Memory>
        ensures { IfOk result (λ sent. sent ≡ (spec.sent_field self.now.schema.now self.now.subscribes field.now).sent parent) }
    {
        let below = field_parent(self.schema, parent, &field.name.text);
        Ok(Field {
            alias: field.alias.copy_in(alloc)?,
            name: field.name.copy_in(alloc)?,
            arguments: field.arguments.copy_in(alloc)?,
            directives: field.directives.copy_in(alloc)?,
            selection_set: self.set_of_field(alloc, &field.selection_set, below)?,
        })
    }

    #[cycle(send)]
    fn set_of_field(
        &self,
        alloc: Global,
        set: &Option<SelectionSet>,
        parent: Option<TypeId>,
    ) -> Result<Option<SelectionSet>, Memory>
        ensures { IfOk result (λ sent. sent ≡ option_map (λ s. s OfField parent) (option_map (spec.sent_set self.now.schema.now self.now.subscribes) set.now)) }
    {
        match set {
            Some(set) => Ok(Some(self.set(alloc, set, Owner::Field, parent)?)),
            None => Ok(None),
        }
    }

    #[cycle(send)]
    #[tactic(auto, using(crate::proofs::SentFolds::sent_inline_out))]
    fn inline(
        &self,
        alloc: Global,
        fragment: &InlineFragment,
        parent: Option<TypeId>,
    ) -> Result<InlineFragment, Memory>
        ensures { IfOk result (λ sent. sent ≡ spec.sent_inline self.now.schema.now self.now.subscribes fragment.now parent) }
    {
        let below = inline_parent(self.schema, parent, &fragment.type_condition);
        Ok(InlineFragment {
            place: fragment.place,
            type_condition: fragment.type_condition.copy_in(alloc)?,
            directives: fragment.directives.copy_in(alloc)?,
            selection_set: self.set(alloc, &fragment.selection_set, Owner::Fragment, below)?,
        })
    }
}

/// What is put at the front of a set that stands at a place.
fn front(alloc: Global, fronted: bool, place: Place) -> Result<Items<Selection>, Memory>
    ensures { IfOk result (λ front. front ≡ spec.with_front fronted place []) }
{
    let mut front = Items::new(alloc);
    if fronted {
        front.push(typename(alloc, place)?)?;
    }
    Ok(front)
}

fn typename(alloc: Global, place: Place) -> Result<Selection, Memory>
    ensures { IfOk result (λ selection. selection ≡ spec.typename_selection place) }
{
    Ok(Selection::Field(Field {
        alias: None,
        name: Name {
            place,
            text: Text::from_str(alloc, "__typename")?,
        },
        arguments: Items::new(alloc),
        directives: Items::new(alloc),
        selection_set: None,
    }))
}
