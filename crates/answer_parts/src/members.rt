ghost use Rattle.std.specs.Prelude.{◌≡◌, ℕ, List, IfOk, OnOk, is_some};
ghost use Rattle.std.specs.Option.{option_copied};
ghost use Rattle.schema_model.specs.Tables.{entry};
ghost use Rattle.answer_parts.specs.Members.{value_in, with_member};

use gql_value::{Members, Value};
use std::alloc::Global;
use std::collections::BTreeMap;
use text_types::{Memory, Text};

/// The members of an object, each of which is found by its name in logarithmic time.
#[derive(Drop)]
pub struct MemberIndex<'a> {
    members: &'a Members,
    values: BTreeMap<&'a str, &'a Value>,
    ghost found: { (name : List ℕ) → value_in values name ≡ entry members.now name },
}

impl<'a> MemberIndex<'a> {
    /// The index of these members. The one error is want of memory.
    pub fn new(alloc: Global, members: &'a Members) -> Result<MemberIndex<'a>, Memory>
        ensures { IfOk result (λ index. index.members.now ≡ members.now) }
    {
        let values = values_of(alloc, members.as_slice())?;
        Ok(MemberIndex { members, values })
    }

    /// The value of a member. Takes no memory.
    pub fn get(&self, name: &Text) -> Option<&'a Value>
        ensures { option_copied result ≡ entry self.now.members.now name.now }
    {
        self.values.get(name.as_str()).copied()
    }
}

fn values_of<'a>(
    alloc: Global,
    members: &'a [(Text, Value)],
) -> Result<BTreeMap<&'a str, &'a Value>, Memory>
    ensures { IfOk result (λ values. (name : List ℕ) → value_in values name ≡ entry members.now name) }
{
    let mut values = BTreeMap::new(alloc);
    'members: for member in members {
        put(&mut values, member.0.as_str(), &member.1)?;
    }
    Ok(values)
}

/// One member more, unless its name is there.
fn put<'a>(
    values: &mut BTreeMap<&'a str, &'a Value>,
    name: &'a str,
    value: &'a Value,
) -> Result<(), Memory>
    ensures { OnOk result ((other : List ℕ) → value_in values.new other ≡ with_member (value_in values.old) name.now value.now other) }
{
    if has(values, name) {
        return Ok(());
    }
    values.insert(name, value)?;
    Ok(())
}

fn has(values: &BTreeMap<&str, &Value>, name: &str) -> bool
    ensures { result ≡ is_some (value_in values.now name.now) }
{
    values.get(name).is_some()
}

/// The value of the first member of a name.
pub(crate) fn first_named<'a>(members: &'a [(Text, Value)], name: &str) -> Option<&'a Value>
    ensures { option_copied result ≡ entry members.now name.now }
{
    for member in members {
        if name.as_bytes() == member.0.as_bytes() {
            return Some(&member.1);
        }
    }
    None
}
