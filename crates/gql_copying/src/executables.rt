//! Definitions of variables.

use crate::copy_in::CopyIn;
use gql_model::VariableDefinition;
use std::alloc::Global;
use text_types::Memory;

impl CopyIn for VariableDefinition {
    fn copy_in(&self, alloc: Global) -> Result<VariableDefinition, Memory> {
        Ok(VariableDefinition {
            place: self.place,
            name: self.name.copy_in(alloc)?,
            variable_type: self.variable_type.copy_in(alloc)?,
            default: self.default.copy_in(alloc)?,
            directives: self.directives.copy_in(alloc)?,
        })
    }
}
