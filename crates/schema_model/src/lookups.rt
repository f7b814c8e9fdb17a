ghost use Rattle.std.specs.Prelude.{◌≡◌};
ghost use Rattle.std.specs.Option.{option_copied, option_map};
ghost use Rattle.schema_model.specs.Tables.{entry};
ghost use Rattle.schema_model.specs.Schemas.{type_at, id_named, kind_of, root_name, root_of, field_in, field_of, field_type_of, input_fields_in, input_fields_of, has_value, enum_has};

use crate::schema::{
    InputValue, RootName, RootNames, Schema, SchemaDirective, SchemaField, SchemaType, TypeForm,
    TypeId, TypeKind,
};
use crate::table::Table;
use gql_model::{OperationKind, TypeRef};
use text_types::Text;

impl Schema {
    /// The type of a number, under its name.
    pub fn type_at(&self, id: TypeId) -> Option<&(Text, SchemaType)>
        ensures { option_copied result ≡ type_at self.now id }
    {
        self.types.at(id.0 as usize)
    }

    /// The number of the type of a name.
    pub fn type_named(&self, name: &Text) -> Option<TypeId>
        ensures { result ≡ id_named self.now name.now }
    {
        match self.types.place_of(name) {
            Some(place) => Some(TypeId(place as u64)),
            None => None,
        }
    }

    /// The name of the type of a number.
    pub fn type_name(&self, id: TypeId) -> Option<&Text>
        ensures { option_copied result ≡ option_map (λ t. t.0) (type_at self.now id) }
    {
        match self.type_at(id) {
            Some((name, _)) => Some(name),
            None => None,
        }
    }

    /// The kind of the type of a number.
    pub fn type_kind(&self, id: TypeId) -> Option<TypeKind>
        ensures { result ≡ option_map (λ t. kind_of t.1.form) (type_at self.now id) }
    {
        match self.type_at(id) {
            Some((_, found)) => Some(found.form.kind()),
            None => None,
        }
    }

    /// The root type of a kind of operations.
    pub fn root(&self, kind: OperationKind) -> Option<TypeId>
        ensures { result ≡ root_of self.now kind }
    {
        match self.roots.name_of(kind) {
            Some(name) => self.type_named(&name.text),
            None => None,
        }
    }

    /// A field of an object type or an interface.
    pub fn field(&self, parent: TypeId, name: &Text) -> Option<&SchemaField>
        ensures { option_copied result ≡ field_of self.now parent name.now }
    {
        match self.type_at(parent) {
            Some((_, found)) => found.form.field(name),
            None => None,
        }
    }

    /// The type of a field of an object type or an interface. It doesn't know `__typename`.
    pub fn field_type(&self, parent: TypeId, name: &Text) -> Option<&TypeRef>
        ensures { option_copied result ≡ field_type_of self.now parent name.now }
    {
        match self.field(parent, name) {
            Some(field) => Some(&field.field_type.type_ref),
            None => None,
        }
    }

    /// The fields of an input object type.
    pub fn input_fields(&self, id: TypeId) -> Option<&Table<InputValue>>
        ensures { option_copied result ≡ input_fields_of self.now id }
    {
        match self.type_at(id) {
            Some((_, found)) => found.form.input_fields(),
            None => None,
        }
    }

    /// Whether an enum has this value.
    pub fn has_value(&self, id: TypeId, name: &Text) -> bool
        ensures { result ≡ enum_has self.now id name.now }
    {
        match self.type_at(id) {
            Some((_, found)) => found.form.has_value(name),
            None => false,
        }
    }

    /// A directive that the schema defines.
    pub fn directive(&self, name: &Text) -> Option<&SchemaDirective>
        ensures { option_copied result ≡ entry self.now.directives name.now }
    {
        self.directives.get(name)
    }
}

impl RootNames {
    /// The name of the root type of a kind of operations, where it has one.
    pub fn name_of(&self, kind: OperationKind) -> Option<&RootName>
        ensures { option_copied result ≡ root_name self.now kind }
    {
        match kind {
            OperationKind::Query => self.query.as_ref(),
            OperationKind::Mutation => self.mutation.as_ref(),
            OperationKind::Subscription => self.subscription.as_ref(),
        }
    }
}

impl TypeForm {
    /// The kind of type.
    pub fn kind(&self) -> TypeKind
        ensures { result ≡ kind_of self.now }
    {
        match self {
            TypeForm::Scalar => TypeKind::Scalar,
            TypeForm::Object(_) => TypeKind::Object,
            TypeForm::Interface(_) => TypeKind::Interface,
            TypeForm::Union(_) => TypeKind::Union,
            TypeForm::Enum(_) => TypeKind::Enum,
            TypeForm::Input(_) => TypeKind::InputObject,
        }
    }

    /// The field of a name, of an object type or an interface.
    pub fn field(&self, name: &Text) -> Option<&SchemaField>
        ensures { option_copied result ≡ field_in self.now name.now }
    {
        match self {
            TypeForm::Object(parts) => parts.fields.get(name),
            TypeForm::Interface(parts) => parts.fields.get(name),
            _ => None,
        }
    }

    /// The fields of an input object type.
    pub fn input_fields(&self) -> Option<&Table<InputValue>>
        ensures { option_copied result ≡ input_fields_in self.now }
    {
        match self {
            TypeForm::Input(fields) => Some(fields),
            _ => None,
        }
    }

    /// Whether it is an enum with this value.
    pub fn has_value(&self, name: &Text) -> bool
        ensures { result ≡ has_value self.now name.now }
    {
        match self {
            TypeForm::Enum(values) => values.has(name),
            _ => false,
        }
    }
}
