ghost use Rattle.std.specs.Prelude.{◌≡◌};

use gql_model::{EnumValueDefinition, FieldDefinition, InputDefinition, Name};

/// What stands in a list of a definition under a name.
pub(crate) trait Listed {
    ghost use Rattle.gql_model.specs.declared.name.Name.{Name};

    ghost listed: { Self → Name };

    fn name(&self) -> &Name
        ensures { result.now ≡ listed self.now };
}

impl Listed for Name {
    ghost listed = { λ n. n };

    fn name(&self) -> &Name {
        self
    }
}

impl Listed for FieldDefinition {
    ghost listed = { λ f. f.name };

    fn name(&self) -> &Name {
        &self.name
    }
}

impl Listed for InputDefinition {
    ghost listed = { λ i. i.name };

    fn name(&self) -> &Name {
        &self.name
    }
}

impl Listed for EnumValueDefinition {
    ghost listed = { λ v. v.name };

    fn name(&self) -> &Name {
        &self.name
    }
}
