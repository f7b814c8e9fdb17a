//! What stands in selection sets and on the parts of documents.

use crate::copy_in::CopyIn;
use gql_model::{Argument, Directive, Spread};
use std::alloc::Global;
use text_types::Memory;

impl CopyIn for Argument {
    fn copy_in(&self, alloc: Global) -> Result<Argument, Memory> {
        Ok(Argument {
            name: self.name.copy_in(alloc)?,
            value: self.value.copy_in(alloc)?,
        })
    }
}

impl CopyIn for Directive {
    fn copy_in(&self, alloc: Global) -> Result<Directive, Memory> {
        Ok(Directive {
            place: self.place,
            name: self.name.copy_in(alloc)?,
            arguments: self.arguments.copy_in(alloc)?,
        })
    }
}

impl CopyIn for Spread {
    fn copy_in(&self, alloc: Global) -> Result<Spread, Memory> {
        Ok(Spread {
            place: self.place,
            name: self.name.copy_in(alloc)?,
            directives: self.directives.copy_in(alloc)?,
        })
    }
}
