ghost use Rattle.std.specs.Prelude.{◌≡◌, ◌++◌, ◌∷◌, [], IfOk, map};
ghost use Rattle.gql_value.specs.declared.value.Value.{out-Value};
ghost use Rattle.answer_model.specs.Writing as spec;
ghost use Rattle.field_asking.specs.Asking.{asked_field};
ghost use Rattle.result_writer.specs.Results.{Tells, told_behind};
ghost use Rattle.result_writer.specs.Views.{IsAsSent, answered_of, object_of, found_of, way_of};
ghost use Rattle.result_writer.specs.Ways.{asked_written, found_written, walked, linked_behind};

use crate::error::WriteError;
use crate::object::{Field, Object, Way};
use crate::writer::Writer;
use answer_parts::parent_below;
use cache_model::{Cell, FieldKey, Write, Writes};
use field_asking::AskedField;
use gql_model::TypeRef;
use gql_value::Value;
use site_walk::is_typename;
use text_types::{Memory, Text};

impl<'a> Writer<'a> {
    /// What is asked of an object writes this, objects so deep.
    #[cycle(fields)]
    pub(crate) fn write_fields(
        &self,
        depth: u64,
        object: &Object<'a>,
        out: Writes,
    ) -> Result<Writes, WriteError>
        requires { IsAsSent self.now.asking.now }
        ensures { Tells result (told_behind out (asked_written depth (answered_of self.now) (object_of object.now) (map asked_field object.now.fields.items))) }
    {
        if depth == 0 {
            return Ok(out);
        }
        self.write_all(depth - 1, object, object.fields.as_slice(), out)
    }

    #[cycle(fields)]
    fn write_all<'f>(
        &self,
        depth: u64,
        object: &'f Object<'a>,
        fields: &'f [AskedField<'a>],
        out: Writes,
    ) -> Result<Writes, WriteError>
        requires { IsAsSent self.now.asking.now }
        ensures { Tells result (told_behind out (spec.written_of_each (spec.field_written (spec.fields_written_within depth (answered_of self.now)) (answered_of self.now) (object_of object.now)) (map asked_field fields.now))) }
    {
        let mut out = out;
        'fields: for asked in fields {
            out = self.write_field(depth, object, asked, out)?;
        }
        Ok(out)
    }

    /// A field that is asked must be a member; others aren't read.
    #[cycle(fields)]
    fn write_field<'f>(
        &self,
        depth: u64,
        object: &'f Object<'a>,
        asked: &'f AskedField<'a>,
        out: Writes,
    ) -> Result<Writes, WriteError>
        requires { IsAsSent self.now.asking.now }
        ensures { Tells result (told_behind out (spec.field_written (spec.fields_written_within depth (answered_of self.now)) (answered_of self.now) (object_of object.now) (asked_field asked.now))) }
    {
        match object.members.get(&asked.key) {
            Some(value) => self.write_member(depth, object, asked, value, out),
            None => self.refuse(object, asked, &[]),
        }
    }

    #[cycle(fields)]
    fn write_member<'f>(
        &self,
        depth: u64,
        object: &'f Object<'a>,
        asked: &'f AskedField<'a>,
        value: &'a Value,
        out: Writes,
    ) -> Result<Writes, WriteError>
        requires { IsAsSent self.now.asking.now }
        ensures { Tells result (told_behind out (spec.member_written (spec.fields_written_within depth (answered_of self.now)) (answered_of self.now) (object_of object.now) (asked_field asked.now) value.now)) }
    {
        if is_typename(asked.name) {
            return self.write_typename(object, asked, value, out);
        }
        match asked.field_type {
            Some(wanted) => self.write_value(depth, object, asked, wanted, value, out),
            None => self.refuse(object, asked, &[]),
        }
    }

    #[cycle(fields)]
    fn write_value<'f>(
        &self,
        depth: u64,
        object: &'f Object<'a>,
        asked: &'f AskedField<'a>,
        wanted: &TypeRef,
        value: &'a Value,
        out: Writes,
    ) -> Result<Writes, WriteError>
        requires { IsAsSent self.now.asking.now }
        ensures { Tells result (told_behind out (spec.typed_written (spec.fields_written_within depth (answered_of self.now)) (answered_of self.now) (object_of object.now) (asked_field asked.now) wanted.now value.now (out-Value value.now))) }
    {
        match value {
            Value::Null => self.write_null(object, asked, wanted, out),
            _ => self.write_filled(depth, object, asked, wanted, value, out),
        }
    }

    #[cycle(fields)]
    fn write_filled<'f>(
        &self,
        depth: u64,
        object: &'f Object<'a>,
        asked: &'f AskedField<'a>,
        wanted: &TypeRef,
        value: &'a Value,
        out: Writes,
    ) -> Result<Writes, WriteError>
        requires { IsAsSent self.now.asking.now }
        ensures { Tells result (told_behind out (spec.filled_written (spec.fields_written_within depth (answered_of self.now)) (answered_of self.now) (object_of object.now) (asked_field asked.now) wanted.now value.now)) }
    {
        match parent_below(self.schema(), wanted) {
            Some(parent) => {
                let field = Field {
                    object,
                    asked,
                    parent,
                };
                self.write_composite(depth, &field, wanted, value, out)
            }
            None => self.write_leaf(object, asked, wanted, value, out),
        }
    }

    /// The links of a field, and behind them what the objects write that they lead to.
    #[cycle(fields)]
    fn write_composite(
        &self,
        depth: u64,
        field: &Field<'_, 'a>,
        wanted: &TypeRef,
        value: &'a Value,
        out: Writes,
    ) -> Result<Writes, WriteError>
        requires { IsAsSent self.now.asking.now }
        ensures { Tells result (told_behind out (spec.composite_written (spec.fields_written_within depth (answered_of self.now)) (answered_of self.now) (object_of field.now.object.now) (asked_field field.now.asked.now) wanted.now value.now field.now.parent)) }
    {
        let way = self.way(field, wanted, &[], value, Vec::new(self.alloc))?;
        self.write_way(depth, field.object, field.asked, way, out)
    }

    #[cycle(fields)]
    fn write_way(
        &self,
        depth: u64,
        object: &Object<'_>,
        asked: &AskedField<'_>,
        way: Way<'a>,
        out: Writes,
    ) -> Result<Writes, WriteError>
        requires { IsAsSent self.now.asking.now }
        ensures { Tells result (linked_behind out (object_of object.now) (asked_field asked.now) (walked (found_written depth (answered_of self.now)) (way_of way.entry))) }
    {
        let Way { link, found } = way;
        match link {
            Ok(link) => {
                let out = self.set_cell(object, asked, Cell::Link(link), out)?;
                self.write_found(depth, found.as_slice(), out)
            }
            Err(path) => {
                self.write_found(depth, found.as_slice(), out)?;
                Err(WriteError::Shape { path })
            }
        }
    }

    #[cycle(fields)]
    fn write_found(
        &self,
        depth: u64,
        found: &[Object<'a>],
        out: Writes,
    ) -> Result<Writes, WriteError>
        requires { IsAsSent self.now.asking.now }
        ensures { Tells result (told_behind out (spec.written_of_each (found_written depth (answered_of self.now)) (map found_of found.now))) }
    {
        let mut out = out;
        'objects: for object in found {
            out = self.write_object(depth, object, out)?;
        }
        Ok(out)
    }

    /// An object sets its `__typename` before its fields.
    #[cycle(fields)]
    fn write_object(
        &self,
        depth: u64,
        object: &Object<'a>,
        out: Writes,
    ) -> Result<Writes, WriteError>
        requires { IsAsSent self.now.asking.now }
        ensures { Tells result (told_behind out (found_written depth (answered_of self.now) (found_of object.now))) }
    {
        let mut out = out;
        out.push(self.typename_write(object)?)?;
        self.write_fields(depth, object, out)
    }

    fn typename_write(&self, object: &Object<'_>) -> Result<Write, Memory>
        ensures { IfOk result (λ write. write ≡ spec.typename_write (object_of object.now)) }
    {
        let key = FieldKey::from_text(Text::from_str(self.alloc, "__typename")?);
        let name = Value::Text(object.named.1.copy()?);
        Ok(Write::Set(object.entity.copy()?, key, Cell::Leaf(name)))
    }
}
