//! The functions of a program that signatures lack.
ghost use Rattle.std.specs.Prelude.{◌≡◌};
ghost use Rattle.std.specs.Option.{option_copied};
ghost use Rattle.yarn_check.specs.Missing.{first_lacking, is_given as is_given_of, same_signature as same_signature_of};

use crate::names::same_kinds;
use yarn_value::Signature;

/// The first of these functions that isn't among the given ones with that signature.
pub(crate) fn first_missing<'p>(
    functions: &'p [Signature],
    given: &[Signature],
) -> Option<&'p Signature>
    ensures { option_copied result ≡ first_lacking functions.now given.now }
{
    for function in functions {
        if !is_given(function, given) {
            return Some(function);
        }
    }
    None
}

fn is_given(function: &Signature, given: &[Signature]) -> bool
    ensures { result ≡ is_given_of function.now given.now }
{
    for other in given {
        if same_signature(function, other) {
            return true;
        }
    }
    false
}

fn same_signature(one: &Signature, other: &Signature) -> bool
    ensures { result ≡ same_signature_of one.now other.now }
{
    one.name == other.name
        && same_kinds(one.params.as_slice(), other.params.as_slice())
        && one.result == other.result
}
