//! The top call over forms in memory.

ghost use Rattle.std.specs.Prelude.{◌<◌};

use gate_outside::{FailingSink, FailingSource, MemoryShelf, Shelf, Sink, Source};
use gateway::gate_main;
use std::alloc::Global;
use text_types::{Bytes, Items, Memory, Named, Text};

/// More than any row writes.
const ROOM: usize = 65536;

/// The words of a plain run.
pub const PLAIN: [&str; 7] = [
    "run",
    "--schema",
    "todo.graphql",
    "--rules",
    "none.toml",
    "--queue",
    "todo.queue",
];

/// What a run meets: the most that the source gives and the sink takes in one call, and the numbers
/// of their calls that fail.
#[derive(Clone, Copy)]
pub struct Meets {
    pub piece: usize,
    pub failing_read: u64,
    pub failing_write: u64,
    pub has_rules: bool,
    pub schema: &'static [u8],
}

/// A schema that is taken.
const SCHEMA: &[u8] =
    b"type Query { me: User todo(id: ID!): Todo todos: [Todo!]! count(page: Page = {}): Int }
type Mutation { setDone(id: ID!, done: Boolean!): Todo rename(id: ID!, name: String!): User }
type Subscription { count: Int }
type User { id: ID! name: String! nick: String first: Todo last: Todo }
type Todo { id: ID! text: String! done: Boolean! author: User }
input Page { size: Int = 10 order: [[String!]] = \"id\" next: Page }";

/// Nothing fails; no call has the number 0.
pub const ALL_WELL: Meets = Meets {
    piece: ROOM,
    failing_read: 0,
    failing_write: 0,
    has_rules: true,
    schema: SCHEMA,
};

/// What a run answers, what it wrote, and how many bytes it took.
#[derive(Debug, Drop, PartialEq, Eq)]
pub struct Ran {
    pub status: u8,
    pub text: String,
    pub taken: usize,
}

fn words_of(alloc: Global, words: &[&str]) -> Result<Items<Text>, Memory> {
    let mut all = Items::new(alloc);
    for word in words {
        all.push(Text::from_str(alloc, word)?)?;
    }
    Ok(all)
}

fn bytes_of(alloc: Global, text: &str) -> Result<Bytes, Memory> {
    let mut bytes = Bytes::new(alloc);
    bytes.append(text.as_bytes())?;
    Ok(bytes)
}

/// A shelf with the schema, and with the rules where they are to be there.
fn shelf(alloc: Global, schema: &[u8], has_rules: bool) -> Result<MemoryShelf, Memory> {
    let name = if has_rules { "none.toml" } else { "other.toml" };
    let mut files = Named::new(alloc);
    let rules = Text::from_str(alloc, name)?;
    let schema_name = Text::from_str(alloc, "todo.graphql")?;
    let mut text = Bytes::new(alloc);
    text.append(schema)?;
    files.push(rules, Bytes::new(alloc))?;
    if !schema_name.is(name) {
        files.push(schema_name, text)?;
    }
    Ok(MemoryShelf::new(files))
}

fn status_of<I: Source, O: Sink, F: Shelf>(
    alloc: Global,
    words: &[Text],
    input: &mut I,
    output: &mut O,
    files: &mut F,
) -> u8 {
    gate_main(alloc, words, input, output, files)
}

/// Runs the program on these words and this input.
pub fn run(alloc: Global, words: &[&str], input: &str, meets: &Meets) -> Result<Ran, Memory>
    requires { 0 < meets.now.piece }
{
    let words = words_of(alloc, words)?;
    let failing_reads = Vec::from_array(alloc, [meets.failing_read])?;
    let failing_writes = Vec::from_array(alloc, [meets.failing_write])?;
    let mut source = FailingSource::new(bytes_of(alloc, input)?, meets.piece, failing_reads);
    let mut sink = FailingSink::new(alloc, ROOM, meets.piece, failing_writes)?;
    let mut files = shelf(alloc, meets.schema, meets.has_rules)?;
    let status = status_of(alloc, words.as_slice(), &mut source, &mut sink, &mut files);
    Ok(Ran {
        status,
        text: String::from_utf8_lossy(alloc, sink.bytes())?,
        taken: source.given(),
    })
}
