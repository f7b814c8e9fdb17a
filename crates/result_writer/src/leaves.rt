ghost use Rattle.std.specs.Prelude.{◌≡◌, ◌++◌, [], IfOk};
ghost use Rattle.std.specs.declared.result.Result.TheVariants.{Err};
ghost use Rattle.gql_value.specs.declared.value.Value.{out-Value};
ghost use Rattle.answer_model.specs.Paths.{is_above_error, at_places};
ghost use Rattle.answer_model.specs.Writing as spec;
ghost use Rattle.field_asking.specs.Asking.{asked_field};
ghost use Rattle.result_writer.specs.Results.{Tells, told_behind};
ghost use Rattle.result_writer.specs.Views.{answered_of, object_of};

use crate::error::WriteError;
use crate::object::Object;
use crate::paths::path_below;
use crate::writer::Writer;
use answer_parts::{fitted, is_above_error, path_text};
use cache_model::{Cell, Write, Writes};
use field_asking::AskedField;
use gql_model::TypeRef;
use gql_value::Value;
use schema_rules::is_non_null;
use text_types::{Memory, Text};

impl Writer<'_> {
    /// Refuses an answer for what is at a field, as deep in its lists as these indexes lead.
    pub(crate) fn refuse(
        &self,
        object: &Object<'_>,
        asked: &AskedField<'_>,
        places: &[u64],
    ) -> Result<Writes, WriteError>
        ensures { Tells result (told_behind [] (Err (at_places (spec.path_of (object_of object.now) (asked_field asked.now)) places.now))) }
    {
        let path = path_below(self.alloc, object, asked, places)?;
        Err(WriteError::Shape {
            path: path_text(self.alloc, path.as_slice())?,
        })
    }

    /// A write to the field's own cell, which the root of a mutation or a subscription doesn't have.
    pub(crate) fn set_cell(
        &self,
        object: &Object<'_>,
        asked: &AskedField<'_>,
        cell: Cell,
        out: Writes,
    ) -> Result<Writes, Memory>
        ensures { IfOk result (λ writes. writes ≡ out ++ spec.set_cell (object_of object.now) (asked_field asked.now) cell) }
    {
        if !object.keeps {
            return Ok(out);
        }
        let mut out = out;
        out.push(Write::Set(object.entity.copy()?, asked.cell_key()?, cell))?;
        Ok(out)
    }

    fn drop_cell(
        &self,
        object: &Object<'_>,
        asked: &AskedField<'_>,
        out: Writes,
    ) -> Result<Writes, Memory>
        ensures { IfOk result (λ writes. writes ≡ out ++ spec.drop_cell (object_of object.now) (asked_field asked.now)) }
    {
        if !object.keeps {
            return Ok(out);
        }
        let mut out = out;
        out.push(Write::Drop(object.entity.copy()?, asked.cell_key()?))?;
        Ok(out)
    }

    /// A null stands at a nullable type alone.
    pub(crate) fn write_null(
        &self,
        object: &Object<'_>,
        asked: &AskedField<'_>,
        wanted: &TypeRef,
        out: Writes,
    ) -> Result<Writes, WriteError>
        ensures { Tells result (told_behind out (spec.null_written (answered_of self.now) (object_of object.now) (asked_field asked.now) wanted.now)) }
    {
        if is_non_null(wanted) {
            return self.refuse(object, asked, &[]);
        }
        Ok(self.keep_null(object, asked, out)?)
    }

    /// A null that an error explains isn't kept, another one is.
    fn keep_null(
        &self,
        object: &Object<'_>,
        asked: &AskedField<'_>,
        out: Writes,
    ) -> Result<Writes, Memory>
        ensures { IfOk result (λ writes. writes ≡ out ++ spec.null_write (answered_of self.now) (object_of object.now) (asked_field asked.now)) }
    {
        if self.has_error(object, asked)? {
            self.drop_cell(object, asked, out)
        } else {
            self.set_cell(object, asked, Cell::Leaf(Value::Null), out)
        }
    }

    /// Whether some error has its path through a field, or to it.
    fn has_error(&self, object: &Object<'_>, asked: &AskedField<'_>) -> Result<bool, Memory>
        ensures { IfOk result (λ has. has ≡ is_above_error (answered_of self.now).errors (spec.path_of (object_of object.now) (asked_field asked.now))) }
    {
        if self.errors.is_empty() {
            return Ok(false);
        }
        let path = path_below(self.alloc, object, asked, &[])?;
        Ok(is_above_error(self.errors, path.as_slice()))
    }

    pub(crate) fn write_leaf(
        &self,
        object: &Object<'_>,
        asked: &AskedField<'_>,
        wanted: &TypeRef,
        value: &Value,
        out: Writes,
    ) -> Result<Writes, WriteError>
        ensures { Tells result (told_behind out (spec.leaf_written (answered_of self.now).execution.schema (object_of object.now) (asked_field asked.now) wanted.now value.now)) }
    {
        match fitted(self.alloc, self.schema(), wanted, value)? {
            Ok(value) => Ok(self.set_cell(object, asked, Cell::Leaf(value), out)?),
            Err(places) => self.refuse(object, asked, places.as_slice()),
        }
    }

    /// A `__typename` is the name of the object's type, and gives no write of its own.
    pub(crate) fn write_typename(
        &self,
        object: &Object<'_>,
        asked: &AskedField<'_>,
        value: &Value,
        out: Writes,
    ) -> Result<Writes, WriteError>
        ensures { Tells result (told_behind out (spec.typename_written (object_of object.now) (asked_field asked.now) value.now)) }
    {
        if is_text(object.named.1, value) {
            Ok(out)
        } else {
            self.refuse(object, asked, &[])
        }
    }
}

/// Whether a value is this text.
fn is_text(text: &Text, value: &Value) -> bool
    ensures { result ≡ spec.is_text text.now value.now }
{
    match value {
        Value::Text(own) => text == own,
        _ => false,
    }
}
