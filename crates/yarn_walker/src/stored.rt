//! What the store holds of variables and of counts.
ghost use Rattle.std.specs.Prelude.{◌≡◌, IfOk, OnOk, IsTrue};
ghost use Rattle.yarn_value.specs.Pairs.{put, value_under};
ghost use Rattle.yarn_value.specs.Values.{IsShort};
ghost use Rattle.yarn_value.specs.Visits.{count_name as count_name_of, number_in, visits as visits_of};

use std::alloc::Global;
use yarn_base::{Memory, Text};
use yarn_store::Store;
use yarn_value::Value;

/// The bytes that a text of a run may have.
const LONGEST_TEXT: usize = 65_536;

/// The variable that counts how often the node of that title was left (docs/language.md, The meaning).
#[tactic(auto, unfolding(yarn_value::specs::Visits::count_name))]
pub(crate) fn count_name(alloc: Global, title: &Text) -> Result<Text, Memory>
    ensures { IfOk result (λ name. name ≡ count_name_of title.now) }
{
    let mut name = Text::from_str(alloc, "$Yarn.Internal.Visiting.")?;
    name.push_str(title.as_str())?;
    Ok(name)
}

/// How often the node of that title was left; 0 where no number is stored.
pub(crate) fn visits(alloc: Global, store: &Store, title: &Text) -> Result<i64, Memory>
    ensures { IfOk result (λ n. n ≡ visits_of store.now title.now) }
{
    let name = count_name(alloc, title)?;
    Ok(count_under(store, &name))
}

/// The number that is stored under a name; 0 where none is.
pub(crate) fn count_under(store: &Store, name: &Text) -> i64
    ensures { result ≡ number_in (value_under store.now name.now) }
{
    match store.get(name) {
        Some(Value::Number(count)) => *count,
        _ => 0,
    }
}

/// Gives a variable that is there this value. `Memory` where it isn't there, or for a text of more than 65,536 bytes:
/// the store of a run has all variables, and no evaluation gives such a text.
pub(crate) fn store_value(store: &mut Store, name: &Text, value: Value) -> Result<(), Memory>
    ensures { OnOk result (store.new ≡ put store.old name.now value) }
{
    if store.get(name).is_none() || !is_short(&value) {
        return Err(Memory);
    }
    let _before = store.replace(name, value);
    Ok(())
}

pub(crate) fn is_short(value: &Value) -> bool
    ensures { IsTrue result → IsShort value.now }
{
    match value {
        Value::Str(text) => text.len() <= LONGEST_TEXT,
        Value::Number(_) | Value::Truth(_) => true,
    }
}
