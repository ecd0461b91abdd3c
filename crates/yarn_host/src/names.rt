//! Finds signatures by name, and says which names and arguments are right.
ghost use Rattle.std.specs.Prelude.{◌≡◌, ◌<◌, ◌&&◌, length, map, Some, IsSome, is_some};
ghost use Rattle.std.specs.Option.{option_copied};
ghost use Rattle.yarn_value.specs.Values.{kind_of};
ghost use Rattle.yarn_value.specs.Rows.{same_kind};
ghost use Rattle.yarn_value.specs.Calls.{same_kinds};
ghost use Rattle.yarn_value.specs.Signatures.{signature_named};
ghost use Rattle.yarn_host.specs.Names.{is_free_name, place_of, takes};

use yarn_base::{Text, is_name};
use yarn_expr::is_reserved;
use yarn_value::{Kind, Signature, Signatures, Value, find_builtin};

// Whether the text may be the name of a host function.
pub(crate) fn is_free(name: &Text) -> bool
    ensures { result ≡ is_free_name name.now }
{
    is_name(name) && !is_reserved(name.as_str()) && !find_builtin(name.as_str()).is_some()
}

// The first signature with a name.
fn named<'s>(signatures: &'s [Signature], name: &Text) -> Option<&'s Signature>
    ensures { option_copied result ≡ signature_named signatures.now name.now }
{
    for signature in signatures {
        if signature.name == *name {
            return Some(signature);
        }
    }
    None
}

// Whether there is a signature with a name.
pub(crate) fn has(signatures: &Signatures, name: &Text) -> bool
    ensures { result ≡ is_some (signature_named signatures.now name.now) }
{
    named(signatures.as_slice(), name).is_some()
}

// The place of the first signature with a name.
fn find(signatures: &[Signature], name: &Text) -> Option<usize>
    ensures { result ≡ place_of signatures.now name.now }
{
    for (at, signature) in signatures.iter().enumerate() {
        if signature.name == *name {
            return Some(at);
        }
    }
    None
}

// The place of the signature with a name that is there.
pub(crate) fn place(signatures: &Signatures, name: &Text) -> usize
    requires { IsSome (place_of signatures.now name.now) }
    ensures value { place_of signatures.now name.now ≡ Some result }
    ensures within { result < length signatures.now }
{
    match find(signatures.as_slice(), name) {
        Some(at) => at,
        None => unreachable!(),
    }
}

// Whether the function with a name takes these arguments.
pub(crate) fn has_params(signatures: &Signatures, name: &Text, args: &[Value]) -> bool
    ensures { result ≡ takes (signature_named signatures.now name.now) args.now }
{
    match named(signatures.as_slice(), name) {
        None => false,
        Some(signature) => have_kinds(signature.params.as_slice(), args),
    }
}

// Whether values have these kinds, one by one.
fn have_kinds(kinds: &[Kind], values: &[Value]) -> bool
    ensures { result ≡ same_kinds kinds.now (map kind_of values.now) }
{
    match kinds {
        [] => values.is_empty(),
        [kind, kinds @ ..] => match values {
            [] => false,
            [value, values @ ..] => has_kind(*kind, value) && have_kinds(kinds, values),
        },
    }
}

// Whether a value has that kind.
pub(crate) fn has_kind(kind: Kind, value: &Value) -> bool
    ensures { result ≡ same_kind kind (kind_of value.now) }
{
    match (kind, value) {
        (Kind::Number, Value::Number(_)) => true,
        (Kind::Str, Value::Str(_)) => true,
        (Kind::Truth, Value::Truth(_)) => true,
        _ => false,
    }
}
