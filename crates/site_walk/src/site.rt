ghost use Rattle.std.specs.Prelude.{◌≡◌, OnOk};
ghost use Rattle.check_model.specs.Sites.{Site as Seen};
ghost use Rattle.site_walk.specs.Seen.{seen};

use check_model::Location;
use gql_model::{Argument, Directive, Literal, TypeRef};
use schema_model::{InputValue, Table, TypeId};
use text_types::{Memory, Text};

/// A part of a document, with what the schema says of where it stands.
#[derive(Clone, Copy)]
pub enum Site<'a> {
    /// A type condition.
    Condition(&'a Text),
    /// A field, in a set of this type.
    Selected {
        parent: Option<TypeId>,
        name: &'a Text,
        has_set: bool,
    },
    /// A fragment, spread in a set of this type.
    Spreading {
        parent: Option<TypeId>,
        fragment: Option<TypeId>,
    },
    /// The directives of one part.
    Directed {
        location: Location,
        directives: &'a [Directive],
    },
    /// Arguments, of which these are defined.
    Given {
        defined: &'a Table<InputValue>,
        arguments: &'a [Argument],
    },
    /// The default of a variable of this type.
    Default {
        wanted: &'a TypeRef,
        literal: &'a Literal,
    },
}

/// What a rule keeps from site to site.
pub trait Visitor {
    ghost step: { Self → Seen → Self };

    fn visit(&mut self, site: Site<'_>) -> Result<(), Memory>
        ensures { OnOk result (self.new ≡ step self.old (seen site.entry)) };
}
