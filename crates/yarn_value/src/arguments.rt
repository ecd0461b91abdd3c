//! Takes the arguments of an operation apart, which have the kinds of its row.
ghost use Rattle.std.specs.Prelude.{◌≡◌, ◌∷◌, [], IsTrue, map, Some, None};
ghost use Rattle.yarn_value.specs.Rows.{takes};
ghost use Rattle.yarn_value.specs.Values.{kind_of};
ghost use Rattle.yarn_value.specs.declared.builtin.Param.TheVariants.{One, Any, Same};
ghost use Rattle.yarn_value.specs.declared.value.Kind.TheVariants as kind;
ghost use Rattle.yarn_value.specs.declared.value.Value.TheVariants as value;

use crate::Value;
use yarn_base::Text;

pub(crate) fn numbers(args: &[Value]) -> (i64, i64)
    requires { IsTrue (takes (Some (One kind.Number)) (Some (One kind.Number)) (map kind_of args.now)) }
    ensures { args.now ≡ value.Number result.0 ∷ value.Number result.1 ∷ [] }
{
    match args {
        [Value::Number(first), Value::Number(second)] => (*first, *second),
        _ => unreachable!(),
    }
}

pub(crate) fn number(args: &[Value]) -> i64
    requires { IsTrue (takes (Some (One kind.Number)) None (map kind_of args.now)) }
    ensures { args.now ≡ value.Number result ∷ [] }
{
    match args {
        [Value::Number(number)] => *number,
        _ => unreachable!(),
    }
}

pub(crate) fn truths(args: &[Value]) -> (bool, bool)
    requires { IsTrue (takes (Some (One kind.Truth)) (Some (One kind.Truth)) (map kind_of args.now)) }
    ensures { args.now ≡ value.Truth result.0 ∷ value.Truth result.1 ∷ [] }
{
    match args {
        [Value::Truth(first), Value::Truth(second)] => (*first, *second),
        _ => unreachable!(),
    }
}

pub(crate) fn truth(args: &[Value]) -> bool
    requires { IsTrue (takes (Some (One kind.Truth)) None (map kind_of args.now)) }
    ensures { args.now ≡ value.Truth result ∷ [] }
{
    match args {
        [Value::Truth(truth)] => *truth,
        _ => unreachable!(),
    }
}

pub(crate) fn texts(args: &[Value]) -> (&Text, &Text)
    requires { IsTrue (takes (Some (One kind.Str)) (Some (One kind.Str)) (map kind_of args.now)) }
    ensures { args.now ≡ value.Str result.0.now ∷ value.Str result.1.now ∷ [] }
{
    match args {
        [Value::Str(first), Value::Str(second)] => (first, second),
        _ => unreachable!(),
    }
}

/// Two values of one kind.
pub(crate) fn two(args: &[Value]) -> (&Value, &Value)
    requires { IsTrue (takes (Some Any) (Some Same) (map kind_of args.now)) }
    ensures { args.now ≡ result.0.now ∷ result.1.now ∷ [] }
{
    match args {
        [first, second] => (first, second),
        _ => unreachable!(),
    }
}

pub(crate) fn one(args: &[Value]) -> &Value
    requires { IsTrue (takes (Some Any) None (map kind_of args.now)) }
    ensures { args.now ≡ result.now ∷ [] }
{
    match args {
        [value] => value,
        _ => unreachable!(),
    }
}
