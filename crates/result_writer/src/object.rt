use answer_model::Step;
use answer_parts::{MemberIndex, ObjectType};
use cache_model::{EntityKey, Link};
use field_asking::AskedField;
use schema_model::TypeId;
use text_types::Text;

/// An object of the answer: its type, its key, its members, the place where it is, whether its fields have
/// cells of their own, and what is asked of it.
#[derive(Drop)]
pub(crate) struct Object<'a> {
    pub(crate) named: ObjectType<'a>,
    pub(crate) entity: EntityKey,
    pub(crate) members: MemberIndex<'a>,
    pub(crate) path: Vec<Step>,
    pub(crate) keeps: bool,
    pub(crate) fields: Vec<AskedField<'a>>,
}

/// A field of composite type, of an object.
#[derive(Drop)]
pub(crate) struct Field<'f, 'a> {
    pub(crate) object: &'f Object<'a>,
    pub(crate) asked: &'f AskedField<'a>,
    pub(crate) parent: TypeId,
}

/// A way through the lists of a field: where it leads, or the first place on it that doesn't fit, and the
/// objects that were found so far.
#[derive(Drop)]
pub(crate) struct Way<'a> {
    pub(crate) link: Result<Link, Text>,
    pub(crate) found: Vec<Object<'a>>,
}
