ghost use Rattle.std.specs.Prelude.{◌≡◌, ◌++◌, ◌∷◌, [], IfOk, map};
ghost use Rattle.gql_value.specs.declared.value.Value.{out-Value};
ghost use Rattle.answer_model.specs.Writing as model;
ghost use Rattle.result_writer.specs.Views.{IsAsSent, answered_of, field_of, found_of, way_of};
ghost use Rattle.result_writer.specs.Ways as spec;

use crate::object::{Field, Object, Way};
use crate::paths::{path_below, typename_path};
use crate::writer::Writer;
use answer_parts::{MemberIndex, ObjectType, path_text, type_of_members};
use cache_model::{Link, Links};
use gql_model::TypeRef;
use gql_value::{Members, Value};
use std::alloc::Global;
use text_types::Memory;

impl<'a> Writer<'a> {
    /// The way of a value through the lists of a type, from these indexes on.
    #[cycle(way)]
    pub(crate) fn way(
        &self,
        field: &Field<'_, 'a>,
        wanted: &TypeRef,
        places: &[u64],
        value: &'a Value,
        found: Vec<Object<'a>>,
    ) -> Result<Way<'a>, Memory>
        requires { IsAsSent self.now.asking.now }
        ensures { IfOk result (λ way. way_of way ≡ spec.way (answered_of self.now) (field_of field.now) wanted.now places.now value.now (map found_of found.entry.items)) }
    {
        match wanted {
            TypeRef::Named { non_null, .. } => {
                self.named_way(field, *non_null, places, value, found)
            }
            TypeRef::List { of, non_null } => {
                self.list_way(field, of.get(), *non_null, places, value, found)
            }
        }
    }

    fn named_way(
        &self,
        field: &Field<'_, 'a>,
        required: bool,
        places: &[u64],
        value: &'a Value,
        found: Vec<Object<'a>>,
    ) -> Result<Way<'a>, Memory>
        requires { IsAsSent self.now.asking.now }
        ensures { IfOk result (λ way. way_of way ≡ spec.named_way (answered_of self.now) (field_of field.now) required places.now (out-Value value.now) (map found_of found.entry.items)) }
    {
        match value {
            Value::Null => self.null_way(field, required, places, found),
            Value::Obj(members) => self.members_way(field, places, members, found),
            _ => self.misfit_way(field, places, found),
        }
    }

    #[cycle(way)]
    fn list_way(
        &self,
        field: &Field<'_, 'a>,
        item: &TypeRef,
        required: bool,
        places: &[u64],
        value: &'a Value,
        found: Vec<Object<'a>>,
    ) -> Result<Way<'a>, Memory>
        requires { IsAsSent self.now.asking.now }
        ensures { IfOk result (λ way. way_of way ≡ spec.list_way (spec.way (answered_of self.now) (field_of field.now) item.now) (field_of field.now) required places.now (out-Value value.now) (map found_of found.entry.items)) }
    {
        match value {
            Value::Null => self.null_way(field, required, places, found),
            Value::List(values) => self.items_way(field, item, places, values.as_slice(), found),
            _ => self.misfit_way(field, places, found),
        }
    }

    #[cycle(way)]
    fn items_way(
        &self,
        field: &Field<'_, 'a>,
        item: &TypeRef,
        places: &[u64],
        values: &'a [Value],
        found: Vec<Object<'a>>,
    ) -> Result<Way<'a>, Memory>
        requires { IsAsSent self.now.asking.now }
        ensures { IfOk result (λ way. way_of way ≡ spec.items_way (spec.way (answered_of self.now) (field_of field.now) item.now) places.now 0 values.now [] (map found_of found.entry.items)) }
    {
        let mut links = Links::new(self.alloc);
        let mut found = found;
        'values: for (at, value) in values.iter().enumerate() {
            let inner = places_behind(self.alloc, places, at as u64)?;
            let way = self.way(field, item, inner.as_slice(), value, found)?;
            found = way.found;
            match way.link {
                Ok(link) => links.push(link)?,
                Err(path) => {
                    return Ok(Way {
                        link: Err(path),
                        found,
                    });
                }
            }
        }
        Ok(Way {
            link: Ok(Link::List(links)),
            found,
        })
    }

    fn null_way(
        &self,
        field: &Field<'_, 'a>,
        required: bool,
        places: &[u64],
        found: Vec<Object<'a>>,
    ) -> Result<Way<'a>, Memory>
        ensures { IfOk result (λ way. way_of way ≡ spec.null_way (field_of field.now) places.now required (map found_of found.entry.items)) }
    {
        if required {
            return self.misfit_way(field, places, found);
        }
        Ok(Way {
            link: Ok(Link::Null),
            found,
        })
    }

    fn misfit_way(
        &self,
        field: &Field<'_, 'a>,
        places: &[u64],
        found: Vec<Object<'a>>,
    ) -> Result<Way<'a>, Memory>
        ensures { IfOk result (λ way. way_of way ≡ spec.misfit_way (spec.place_of (field_of field.now) places.now) (map found_of found.entry.items)) }
    {
        let path = path_below(self.alloc, field.object, field.asked, places)?;
        Ok(Way {
            link: Err(path_text(self.alloc, path.as_slice())?),
            found,
        })
    }

    fn members_way(
        &self,
        field: &Field<'_, 'a>,
        places: &[u64],
        members: &'a Members,
        found: Vec<Object<'a>>,
    ) -> Result<Way<'a>, Memory>
        requires { IsAsSent self.now.asking.now }
        ensures { IfOk result (λ way. way_of way ≡ spec.members_way (answered_of self.now) (field_of field.now) places.now members.now (map found_of found.entry.items)) }
    {
        match type_of_members(self.schema(), field.parent, members) {
            Some(named) => self.object_way(field, named, places, members, found),
            None => self.untyped_way(field, places, found),
        }
    }

    /// An object whose `__typename` tells no type.
    fn untyped_way(
        &self,
        field: &Field<'_, 'a>,
        places: &[u64],
        found: Vec<Object<'a>>,
    ) -> Result<Way<'a>, Memory>
        ensures { IfOk result (λ way. way_of way ≡ spec.misfit_way (model.typename_path (field_of field.now) places.now) (map found_of found.entry.items)) }
    {
        let path = path_below(self.alloc, field.object, field.asked, places)?;
        let path = typename_path(self.alloc, path)?;
        Ok(Way {
            link: Err(path_text(self.alloc, path.as_slice())?),
            found,
        })
    }

    fn object_way(
        &self,
        field: &Field<'_, 'a>,
        named: ObjectType<'a>,
        places: &[u64],
        members: &'a Members,
        found: Vec<Object<'a>>,
    ) -> Result<Way<'a>, Memory>
        requires { IsAsSent self.now.asking.now }
        ensures { IfOk result (λ way. way_of way ≡ spec.object_way (answered_of self.now) (field_of field.now) places.now members.now (map found_of found.entry.items) (named.entry.0, named.entry.1.now)) }
    {
        let object = self.object_at(field, named, places, members)?;
        let link = Link::Entity(object.entity.copy()?);
        let mut found = found;
        found.push(object)?;
        Ok(Way {
            link: Ok(link),
            found,
        })
    }

    fn object_at(
        &self,
        field: &Field<'_, 'a>,
        named: ObjectType<'a>,
        places: &[u64],
        members: &'a Members,
    ) -> Result<Object<'a>, Memory>
        requires { IsAsSent self.now.asking.now }
        ensures { IfOk result (λ object. found_of object ≡ spec.found_at (answered_of self.now) (field_of field.now) places.now members.now (named.entry.0, named.entry.1.now)) }
    {
        let sets = field.asked.sets.as_slice();
        let fields = self.asking.fields(self.alloc, named.0, sets)?;
        let members = MemberIndex::new(self.alloc, members)?;
        let entity = self.entity_of(field, named.1, places, fields.as_slice(), &members)?;
        let path = path_below(self.alloc, field.object, field.asked, places)?;
        Ok(Object {
            named,
            entity,
            members,
            path,
            keeps: true,
            fields,
        })
    }
}

/// Indexes with one more behind them.
fn places_behind(alloc: Global, places: &[u64], at: u64) -> Result<Vec<u64>, Memory>
    ensures { IfOk result (λ all. all.items ≡ places.now ++ at ∷ []) }
{
    let mut all = Vec::new(alloc);
    'places: for place in places {
        all.push(*place)?;
    }
    all.push(at)?;
    Ok(all)
}
