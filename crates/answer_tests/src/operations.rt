ghost use Rattle.std.specs.Prelude.{◌≡◌, IfOk};
ghost use Rattle.checked_operation.specs.Acceptance.{IsWhole};

use checked_operation::Checked;
use gql_check::check;
use gql_coercion::{Inputs, default_values};
use gql_documents::parse_document;
use gql_model::{Document, OperationKind, TypeRef};
use gql_schema::read_schema;
use gql_tokens::nesting;
use gql_value::Value;
use schema_model::{Schema, Table, TypeId};
use std::alloc::Global;
use std::test::Fail;
use text_types::Text;

/// The schema of the worked rows.
pub(crate) const TODOS: &str =
    "type Query{me:User todo(id:ID!):Todo todos:[Todo!]!} type Mutation{setDone(id:ID! done:Boolean!):Todo rename(id:ID! name:String!):User} type User{id:ID! name:String! nick:String} type Todo{id:ID! text:String! done:Boolean! author:User}";

/// A schema with nullable fields, an interface and a field whose argument has a default.
pub(crate) const NODES: &str =
    "type Query{now:Int me:User todo(id:ID!):Todo todos(first:Int=10):[Todo!] grid:[[Todo]] node(id:ID!):Node} type Mutation{rename(id:ID! name:String!):User} interface Node{id:ID!} type User implements Node{id:ID! name:String nick:String friends:[User]} type Todo implements Node{id:ID! text:String done:Boolean author:User}";

/// A schema with the values of its defaults.
#[derive(Drop)]
pub(crate) struct Types {
    pub schema: Schema,
    pub defaults: Table<Table<Value>>,
}

impl Types {
    pub(crate) fn of(alloc: Global, text: &str) -> Result<Types, Fail> {
        let schema = schema_of(alloc, text)?;
        let defaults = default_values(alloc, &schema)?.ok_or("no values of defaults")?;
        Ok(Types { schema, defaults })
    }

    pub(crate) fn inputs(&self) -> Inputs<'_>
        ensures { result.schema.now ≡ self.now.schema }
    {
        Inputs {
            schema: &self.schema,
            defaults: &self.defaults,
        }
    }

    /// The object type of the root of queries.
    pub(crate) fn root(&self) -> Result<TypeId, Fail> {
        Ok(
            self.schema
                .root(OperationKind::Query)
                .ok_or("no root of queries")?,
        )
    }

    /// The type of a field of the root of queries.
    pub(crate) fn field_type(&self, name: &Text) -> Result<&TypeRef, Fail> {
        Ok(
            self.schema
                .field_type(self.root()?, name)
                .ok_or("no such field")?,
        )
    }
}

fn schema_of(alloc: Global, text: &str) -> Result<Schema, Fail> {
    match read_schema(alloc, text.as_bytes()) {
        Ok(schema) => Ok(schema),
        Err(_) => Err("the schema is refused")?,
    }
}

fn document(alloc: Global, text: &str) -> Result<Document, Fail> {
    let bytes = text.as_bytes();
    if nesting(bytes) > 64 {
        return Err("the text nests too deep")?;
    }
    match parse_document(alloc, bytes) {
        Ok(document) => Ok(document),
        Err(_) => Err("the text is no document")?,
    }
}

/// The operation of a text.
pub(crate) fn operation(alloc: Global, types: &Types, text: &str) -> Result<Checked, Fail>
    ensures { IfOk result (λ checked. IsWhole checked) }
{
    match check(alloc, &types.schema, document(alloc, text)?, None) {
        Ok(checked) => Ok(checked),
        Err(_) => Err("the operation is refused")?,
    }
}
