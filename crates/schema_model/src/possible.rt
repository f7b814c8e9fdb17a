ghost use Rattle.std.specs.Prelude.{◌≡◌, bytes_eq};
ghost use Rattle.schema_model.specs.Schemas.{NamedType};
ghost use Rattle.schema_model.specs.Possible.{is_object, implements, has_member, is_possible_type, is_possible_of, have_common, have_common_object_of};

use crate::schema::{Schema, SchemaType, TypeForm, TypeId};
use text_types::Text;

impl Schema {
    /// Whether the object type is the named type, implements it, or is a member of it.
    pub fn is_possible(&self, object: TypeId, named: TypeId) -> bool
        ensures { result ≡ is_possible_of self.now object named }
    {
        match (self.type_at(object), self.type_at(named)) {
            (Some(object), Some(named)) => is_possible_type(object, named),
            _ => false,
        }
    }

    /// Whether two types have an object type in common.
    pub fn have_common_object(&self, a: TypeId, b: TypeId) -> bool
        ensures { result ≡ have_common_object_of self.now a b }
    {
        match (self.type_at(a), self.type_at(b)) {
            (Some(a), Some(b)) => have_common(self.types.as_slice(), a, b),
            _ => false,
        }
    }
}

fn have_common(types: &[(Text, SchemaType)], a: &(Text, SchemaType), b: &(Text, SchemaType)) -> bool
    ensures { result ≡ have_common types.now a.now b.now }
{
    types.iter().any(|object| is_possible_type(object, a) && is_possible_type(object, b))
}

fn is_possible_type(object: &(Text, SchemaType), named: &(Text, SchemaType)) -> bool
    ensures { result ≡ is_possible_type object.now named.now }
{
    let form = &object.1.form;
    form.is_object()
        && (object.0 == named.0 || form.implements(&named.0) || named.1.form.has_member(&object.0))
}

impl TypeForm {
    /// Whether it is an object type.
    pub fn is_object(&self) -> bool
        ensures { result ≡ is_object self.now }
    {
        matches!(self, TypeForm::Object(_))
    }

    /// Whether an object type or an interface declares that it implements an interface.
    pub fn implements(&self, interface: &Text) -> bool
        ensures { result ≡ implements self.now interface.now }
    {
        match self {
            TypeForm::Object(parts) => parts.interfaces.has(interface),
            TypeForm::Interface(parts) => parts.interfaces.has(interface),
            _ => false,
        }
    }

    /// Whether a union has a member.
    pub fn has_member(&self, member: &Text) -> bool
        ensures { result ≡ has_member self.now member.now }
    {
        match self {
            TypeForm::Union(members) => members.has(member),
            _ => false,
        }
    }
}
