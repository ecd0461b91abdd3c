//! Writes a store as a variables file (docs/formats.md, Variables file).
ghost use Rattle.std.specs.Prelude.{◌≡◌, ◌++◌, IfOk, OnOk, codes, true};
ghost use Rattle.std.specs.Fmt.{signed_decimal};
ghost use Rattle.yarn_value.specs.Numbers.{fits};
ghost use Rattle.yarn_store.specs.Reading.{vars_of, Holds};
ghost use Rattle.yarn_store.specs.Variables.{vars_text, pair_line, spelling};
ghost use Rattle.yarn_store.specs.Steps.{IsRanged, IsReadable};

use crate::Store;
use std::alloc::Global;
use yarn_base::{List, Memory, Text};
use yarn_value::{Value, quote};

/// The variables file of a store: its pairs in order, each on a line of its own.
pub fn write_vars(alloc: Global, store: &Store) -> Result<List<u8>, Memory>
    ensures bytes { IfOk result (λ bytes. bytes ≡ vars_text store.now) }
    ensures read_again { IfOk result (λ bytes. vars_of bytes ≡ Holds store.now) }
{
    let mut bytes = List::new(alloc);
    for at in 0..store.len() {
        let (name, value) = store.pair_at(at);
        push_line(alloc, &mut bytes, name, value)?;
    }
    Ok(bytes)
}

fn push_line(alloc: Global, bytes: &mut List<u8>, name: &Text, value: &Value) -> Result<(), Memory>
    ensures bytes { OnOk result (bytes.new ≡ bytes.old ++ pair_line (name.now, value.now) ++ codes "\n") }
    ensures readable { OnOk result (IsReadable (name.now, value.now)) }
{
    let spelled = spell(alloc, value)?;
    bytes.extend_from_slice(name.as_str().as_bytes())?;
    bytes.extend_from_slice(b" = ")?;
    bytes.extend_from_slice(spelled.as_str().as_bytes())?;
    bytes.extend_from_slice(b"\n")?;
    Ok(())
}

fn spell(alloc: Global, value: &Value) -> Result<Text, Memory>
    ensures text { IfOk result (λ text. text ≡ spelling value.now) }
    ensures ranged { IsRanged value.now }
{
    match value {
        Value::Number(number) => decimal(alloc, *number),
        Value::Str(text) => quote(alloc, text),
        Value::Truth(true) => Text::from_str(alloc, "true"),
        Value::Truth(false) => Text::from_str(alloc, "false"),
    }
}

fn decimal(alloc: Global, number: i64) -> Result<Text, Memory>
    ensures text { IfOk result (λ text. text ≡ signed_decimal number) }
    ensures ranged { fits number ≡ true }
{
    Text::from_string(format!(in alloc; "{number}")?).map_err(|_| Memory)
}
