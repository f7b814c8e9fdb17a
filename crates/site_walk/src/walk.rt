ghost use Rattle.std.specs.Prelude.{◌≡◌, OnOk, map, is_some};
ghost use Rattle.std.specs.List.{fold, flat_map};
ghost use Rattle.check_model.specs.Sites.{directive_site, directive_sites, spread_sites, sites_of_set, sites_of_selection, sites_of_field, sites_of_inline, field_head_sites, condition_sites, inline_head_sites};
ghost use Rattle.gql_model.specs.declared.selection.Field.{out-Field};

use crate::scope::Scope;
use crate::site::{Site, Visitor};
use crate::types::{composite_named, field_parent, inline_parent};
use check_model::Location;
use gql_model::{Directive, Field, InlineFragment, Name, Selection, SelectionSet, Spread};
use schema_model::TypeId;
use text_types::Memory;

impl<'a> Scope<'a> {
    fn visit_directive<V: Visitor>(
        &self,
        visitor: &mut V,
        directive: &Directive,
    ) -> Result<(), Memory>
        ensures { OnOk result (visitor.new ≡ V.step visitor.old (directive_site self.now.schema.now directive.now)) }
    {
        visitor.visit(Site::Given {
            defined: self.directive_arguments(&directive.name.text),
            arguments: directive.arguments.as_slice(),
        })
    }

    pub(crate) fn visit_directives<V: Visitor>(
        &self,
        visitor: &mut V,
        location: Location,
        directives: &[Directive],
    ) -> Result<(), Memory>
        ensures { OnOk result (visitor.new ≡ fold V.step visitor.old (directive_sites self.now.schema.now location directives.now)) }
    {
        visitor.visit(Site::Directed {
            location,
            directives,
        })?;
        'directives: for directive in directives {
            self.visit_directive(visitor, directive)?;
        }
        Ok(())
    }

    fn visit_spread<V: Visitor>(
        &self,
        visitor: &mut V,
        spread: &Spread,
        parent: Option<TypeId>,
    ) -> Result<(), Memory>
        ensures { OnOk result (visitor.new ≡ fold V.step visitor.old (spread_sites self.now.schema.now self.now.document.now spread.now parent)) }
    {
        visitor.visit(Site::Spreading {
            parent,
            fragment: self.spread_parent(&spread.name.text),
        })?;
        self.visit_directives(
            visitor,
            Location::FragmentSpread,
            spread.directives.as_slice(),
        )
    }

    fn visit_field_head<V: Visitor>(
        &self,
        visitor: &mut V,
        field: &Field,
        parent: Option<TypeId>,
    ) -> Result<(), Memory>
        ensures { let f = out-Field field.now in
            OnOk result (visitor.new ≡ fold V.step visitor.old (field_head_sites self.now.schema.now f.name.text f.arguments f.directives (is_some f.selection_set) parent)) }
    {
        visitor.visit(Site::Selected {
            parent,
            name: &field.name.text,
            has_set: field.selection_set.is_some(),
        })?;
        visitor.visit(Site::Given {
            defined: self.field_arguments(parent, &field.name.text),
            arguments: field.arguments.as_slice(),
        })?;
        self.visit_directives(visitor, Location::Field, field.directives.as_slice())
    }

    fn visit_condition<V: Visitor>(
        &self,
        visitor: &mut V,
        parent: Option<TypeId>,
        condition: &Option<Name>,
    ) -> Result<(), Memory>
        ensures { OnOk result (visitor.new ≡ fold V.step visitor.old (condition_sites self.now.schema.now parent condition.now)) }
    {
        let Some(condition) = condition else {
            return Ok(());
        };
        visitor.visit(Site::Condition(&condition.text))?;
        visitor.visit(Site::Spreading {
            parent,
            fragment: composite_named(self.schema, &condition.text),
        })
    }

    fn visit_inline_head<V: Visitor>(
        &self,
        visitor: &mut V,
        condition: &Option<Name>,
        directives: &[Directive],
        parent: Option<TypeId>,
    ) -> Result<(), Memory>
        ensures { OnOk result (visitor.new ≡ fold V.step visitor.old (inline_head_sites self.now.schema.now condition.now directives.now parent)) }
    {
        self.visit_condition(visitor, parent, condition)?;
        self.visit_directives(visitor, Location::InlineFragment, directives)
    }

    #[cycle(walk)]
    pub(crate) fn visit_set<V: Visitor>(
        &self,
        visitor: &mut V,
        set: &SelectionSet,
        parent: Option<TypeId>,
    ) -> Result<(), Memory>
        ensures { OnOk result (visitor.new ≡ fold V.step visitor.old (sites_of_set self.now.schema.now self.now.document.now set.now parent)) }
    {
        'selections: for selection in set.selections.as_slice() {
            self.visit_selection(visitor, selection, parent)?;
        }
        Ok(())
    }

    #[cycle(walk)]
    fn visit_selection<V: Visitor>(
        &self,
        visitor: &mut V,
        selection: &Selection,
        parent: Option<TypeId>,
    ) -> Result<(), Memory>
        ensures { OnOk result (visitor.new ≡ fold V.step visitor.old (sites_of_selection self.now.schema.now self.now.document.now selection.now parent)) }
    {
        match selection {
            Selection::Field(field) => self.visit_field(visitor, field, parent),
            Selection::Spread(spread) => self.visit_spread(visitor, spread, parent),
            Selection::Inline(fragment) => self.visit_inline(visitor, fragment, parent),
        }
    }

    #[cycle(walk)]
    fn visit_field<V: Visitor>(
        &self,
        visitor: &mut V,
        field: &Field,
        parent: Option<TypeId>,
    ) -> Result<(), Memory>
        ensures { OnOk result (visitor.new ≡ fold V.step visitor.old (sites_of_field self.now.schema.now self.now.document.now field.now parent)) }
    {
        self.visit_field_head(visitor, field, parent)?;
        match &field.selection_set {
            Some(set) => {
                let inner = field_parent(self.schema, parent, &field.name.text);
                self.visit_set(visitor, set, inner)
            }
            None => Ok(()),
        }
    }

    #[cycle(walk)]
    fn visit_inline<V: Visitor>(
        &self,
        visitor: &mut V,
        fragment: &InlineFragment,
        parent: Option<TypeId>,
    ) -> Result<(), Memory>
        ensures { OnOk result (visitor.new ≡ fold V.step visitor.old (sites_of_inline self.now.schema.now self.now.document.now fragment.now parent)) }
    {
        let condition = &fragment.type_condition;
        self.visit_inline_head(visitor, condition, fragment.directives.as_slice(), parent)?;
        let inner = inline_parent(self.schema, parent, condition);
        self.visit_set(visitor, &fragment.selection_set, inner)
    }
}
