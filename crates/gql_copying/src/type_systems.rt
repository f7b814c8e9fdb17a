//! Type system definitions.

use crate::copy_in::CopyIn;
use gql_model::{
    DirectiveDefinition, EnumDefinition, EnumValueDefinition, FieldDefinition, InputDefinition,
    InputObjectDefinition, ObjectDefinition, RootOperation, ScalarDefinition, SchemaDefinition,
    TypeSystem, TypeSystemForm, UnionDefinition,
};
use std::alloc::Global;
use text_types::Memory;

impl CopyIn for TypeSystem {
    fn copy_in(&self, alloc: Global) -> Result<TypeSystem, Memory> {
        Ok(TypeSystem {
            place: self.place,
            description: self.description.copy_in(alloc)?,
            form: self.form.copy_in(alloc)?,
        })
    }
}

impl CopyIn for TypeSystemForm {
    fn copy_in(&self, alloc: Global) -> Result<TypeSystemForm, Memory> {
        match self {
            TypeSystemForm::Schema(form) => Ok(TypeSystemForm::Schema(form.copy_in(alloc)?)),
            TypeSystemForm::Scalar(form) => Ok(TypeSystemForm::Scalar(form.copy_in(alloc)?)),
            TypeSystemForm::Object(form) => Ok(TypeSystemForm::Object(form.copy_in(alloc)?)),
            TypeSystemForm::Interface(form) => Ok(TypeSystemForm::Interface(form.copy_in(alloc)?)),
            TypeSystemForm::Union(form) => Ok(TypeSystemForm::Union(form.copy_in(alloc)?)),
            TypeSystemForm::Enum(form) => Ok(TypeSystemForm::Enum(form.copy_in(alloc)?)),
            TypeSystemForm::Input(form) => Ok(TypeSystemForm::Input(form.copy_in(alloc)?)),
            TypeSystemForm::Directive(form) => Ok(TypeSystemForm::Directive(form.copy_in(alloc)?)),
        }
    }
}

impl CopyIn for SchemaDefinition {
    fn copy_in(&self, alloc: Global) -> Result<SchemaDefinition, Memory> {
        Ok(SchemaDefinition {
            place: self.place,
            directives: self.directives.copy_in(alloc)?,
            roots: self.roots.copy_in(alloc)?,
        })
    }
}

impl CopyIn for RootOperation {
    fn copy_in(&self, alloc: Global) -> Result<RootOperation, Memory> {
        Ok(RootOperation {
            place: self.place,
            kind: self.kind,
            named: self.named.copy_in(alloc)?,
        })
    }
}

impl CopyIn for ScalarDefinition {
    fn copy_in(&self, alloc: Global) -> Result<ScalarDefinition, Memory> {
        Ok(ScalarDefinition {
            name: self.name.copy_in(alloc)?,
            directives: self.directives.copy_in(alloc)?,
        })
    }
}

impl CopyIn for ObjectDefinition {
    fn copy_in(&self, alloc: Global) -> Result<ObjectDefinition, Memory> {
        Ok(ObjectDefinition {
            name: self.name.copy_in(alloc)?,
            interfaces: self.interfaces.copy_in(alloc)?,
            directives: self.directives.copy_in(alloc)?,
            fields: self.fields.copy_in(alloc)?,
        })
    }
}

impl CopyIn for FieldDefinition {
    fn copy_in(&self, alloc: Global) -> Result<FieldDefinition, Memory> {
        Ok(FieldDefinition {
            description: self.description.copy_in(alloc)?,
            name: self.name.copy_in(alloc)?,
            arguments: self.arguments.copy_in(alloc)?,
            field_type: self.field_type.copy_in(alloc)?,
            directives: self.directives.copy_in(alloc)?,
        })
    }
}

impl CopyIn for InputDefinition {
    fn copy_in(&self, alloc: Global) -> Result<InputDefinition, Memory> {
        Ok(InputDefinition {
            description: self.description.copy_in(alloc)?,
            name: self.name.copy_in(alloc)?,
            input_type: self.input_type.copy_in(alloc)?,
            default: self.default.copy_in(alloc)?,
            directives: self.directives.copy_in(alloc)?,
        })
    }
}

impl CopyIn for UnionDefinition {
    fn copy_in(&self, alloc: Global) -> Result<UnionDefinition, Memory> {
        Ok(UnionDefinition {
            name: self.name.copy_in(alloc)?,
            directives: self.directives.copy_in(alloc)?,
            members: self.members.copy_in(alloc)?,
        })
    }
}

impl CopyIn for EnumDefinition {
    fn copy_in(&self, alloc: Global) -> Result<EnumDefinition, Memory> {
        Ok(EnumDefinition {
            name: self.name.copy_in(alloc)?,
            directives: self.directives.copy_in(alloc)?,
            values: self.values.copy_in(alloc)?,
        })
    }
}

impl CopyIn for EnumValueDefinition {
    fn copy_in(&self, alloc: Global) -> Result<EnumValueDefinition, Memory> {
        Ok(EnumValueDefinition {
            description: self.description.copy_in(alloc)?,
            name: self.name.copy_in(alloc)?,
            directives: self.directives.copy_in(alloc)?,
        })
    }
}

impl CopyIn for InputObjectDefinition {
    fn copy_in(&self, alloc: Global) -> Result<InputObjectDefinition, Memory> {
        Ok(InputObjectDefinition {
            name: self.name.copy_in(alloc)?,
            directives: self.directives.copy_in(alloc)?,
            fields: self.fields.copy_in(alloc)?,
        })
    }
}

impl CopyIn for DirectiveDefinition {
    fn copy_in(&self, alloc: Global) -> Result<DirectiveDefinition, Memory> {
        Ok(DirectiveDefinition {
            name: self.name.copy_in(alloc)?,
            arguments: self.arguments.copy_in(alloc)?,
            repeatable: self.repeatable,
            locations: self.locations.copy_in(alloc)?,
        })
    }
}
