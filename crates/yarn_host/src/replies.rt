//! Puts replies on a tape and judges them.
ghost use Rattle.std.specs.Prelude.{◌≡◌, ◌<◌, ◌++◌, ◌∷◌, ◌&&◌, [], length, true, false, Some, IfOk, IfErr, OnOk, OnErr, slice_get, option_map};
ghost use Rattle.yarn_value.specs.Values.{kind_of};
ghost use Rattle.yarn_value.specs.Rows.{same_kind};
ghost use Rattle.yarn_value.specs.Replies.{is_short};
ghost use Rattle.yarn_host.specs.Asks.{entry};

use crate::AskFault;
use crate::names::has_kind;
use yarn_base::{List, Memory, Text};
use yarn_value::{Kind, Reply, Signatures, Value};

// Puts an entry last on a tape, and gives its value back.
pub(crate) fn note(
    tape: &mut List<Reply>,
    name: Text,
    args: List<Value>,
    value: Value,
) -> Result<Value, Memory>
    ensures value { IfOk result (λ same. same ≡ value) }
    ensures tape { OnOk result (tape.new ≡ tape.old ++ entry name args value ∷ []) }
    ensures err { OnErr result (tape.new ≡ tape.old) }
{
    let copy = value.copy()?;
    let reply = Reply {
        name,
        args,
        value: copy,
    };
    match tape.push(reply) {
        Ok(()) => Ok(value),
        Err(_) => Err(Memory),
    }
}

// The kind of what the function at a place replies.
pub(crate) fn reply_kind(signatures: &Signatures, at: usize) -> Kind
    requires { at < length signatures.now }
    ensures { option_map (λ s. s.result) (slice_get signatures.now at) ≡ Some result }
{
    signatures.as_slice()[at].result
}

// The value, or that it has another kind or is too long.
pub(crate) fn judged(value: Value, kind: Kind) -> Result<Value, AskFault>
    ensures ok { IfOk result (λ same. (same ≡ value) × (same_kind kind (kind_of value) && is_short value ≡ true)) }
    ensures err { IfErr result (λ fault. (fault ≡ AskFault.WrongType value) × (same_kind kind (kind_of value) && is_short value ≡ false)) }
{
    if has_kind(kind, &value) && has_room(&value) {
        Ok(value)
    } else {
        Err(AskFault::WrongType(value))
    }
}

// Whether a value is no text over 65,536 bytes.
fn has_room(value: &Value) -> bool
    ensures { result ≡ is_short value.now }
{
    match value {
        Value::Str(text) => text.len() <= 65536,
        Value::Number(_) | Value::Truth(_) => true,
    }
}
