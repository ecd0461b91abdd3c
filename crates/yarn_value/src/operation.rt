//! The operators, and the builtins that need no store, by docs/language.md.
//!
//! One small function for each row of the table; what takes the arguments apart stands in arguments.rt.
ghost use Rattle.std.specs.Prelude.{◌≡◌, ◌≢◌, ◌+ℤ◌, ◌-ℤ◌, ◌*ℤ◌, neg_ℤ, int_lt, int_le, Some, Err, IfOk, MatchResult, not, ◌&&◌, ◌||◌, ◌∷◌, [], false};
ghost use Rattle.yarn_value.specs.Operations.{QuotientsAreExact, Answers, operation, joined as joined_of, makes_text, quotient, remainder, truth_of as truth_of_value, truth_in as truth_in_text, number_of as number_of_value, number_found, xor, same_value, number, truth as truth_is, within as within_is};
ghost use Rattle.yarn_value.specs.Numbers.{signed_number};
ghost use Rattle.yarn_value.specs.Rows.{HasKinds};
ghost use Rattle.yarn_value.specs.declared.fault.OpFault.TheVariants as fault;
ghost use Rattle.yarn_value.specs.declared.value.Value.TheVariants.{Str};

use crate::arguments::{number, numbers, one, texts, truth, truths, two};
use crate::number::signed;
use crate::{OpFault, RunFault, Value, text_of};
use std::alloc::Global;
use yarn_base::Text;

/// An operation, one for each row of the table of operators and builtins that needs no store.
#[derive(Clone, Copy, Debug, PartialEq, Eq)]
pub enum Op {
    Add,
    And,
    Concat,
    Div,
    Eq,
    Gt,
    Gte,
    Lt,
    Lte,
    Mul,
    Neg,
    Neq,
    Not,
    Or,
    Rem,
    Sub,
    Xor,
    /// The builtin `bool`.
    TruthOf,
    /// The builtin `number`.
    NumberOf,
    /// The builtin `string`.
    TextOf,
}

/// The bytes that a text of a run may have.
const LONGEST_TEXT: usize = 65_536;

/// The value of an operation on arguments of its kinds, or the fault of the run
/// (docs/language.md). Want of memory is answered only where a text is made.
pub fn apply(alloc: Global, op: Op, args: &[Value]) -> Result<Value, OpFault>
    requires { HasKinds op args.now }
    ensures exact { Answers result (operation op args.now) }
    ensures no_memory { makes_text op ≡ false → result ≢ Err fault.Memory }
{
    match op {
        Op::Concat => {
            let (first, second) = texts(args);
            joined(first, second)
        }
        Op::TextOf => Ok(Value::Str(text_of(alloc, one(args))?)),
        _ => computed(op, args).map_err(OpFault::Run),
    }
}

/// An operation that makes no text.
fn computed(op: Op, args: &[Value]) -> Result<Value, RunFault>
    requires kinds { HasKinds op args.now }
    requires no_text { makes_text op ≡ false }
    ensures { operation op args.now ≡ Some result }
{
    match op {
        Op::Add => sum(numbers(args)),
        Op::And => both(truths(args)),
        Op::Div => divided(numbers(args)),
        Op::Eq => {
            let (first, second) = two(args);
            Ok(Value::Truth(is_same(first, second)))
        }
        Op::Gt => more(numbers(args)),
        Op::Gte => at_least(numbers(args)),
        Op::Lt => less(numbers(args)),
        Op::Lte => at_most(numbers(args)),
        Op::Mul => product(numbers(args)),
        Op::Neg => within(number(args).checked_neg()),
        Op::Neq => {
            let (first, second) = two(args);
            Ok(Value::Truth(!is_same(first, second)))
        }
        Op::Not => Ok(Value::Truth(!truth(args))),
        Op::Or => either(truths(args)),
        Op::Rem => left_over(numbers(args)),
        Op::Sub => difference(numbers(args)),
        Op::Xor => exactly_one(truths(args)),
        Op::TruthOf => truth_of(one(args)),
        Op::NumberOf => number_of(one(args)),
        Op::Concat | Op::TextOf => unreachable!(),
    }
}

fn within(found: Option<i64>) -> Result<Value, RunFault>
    ensures { result ≡ within_is found }
{
    match found {
        Some(number) => Ok(Value::Number(number)),
        None => Err(RunFault::Overflow),
    }
}

fn sum(pair: (i64, i64)) -> Result<Value, RunFault>
    ensures { result ≡ number (pair.0 +ℤ pair.1) }
{
    within(pair.0.checked_add(pair.1))
}

fn difference(pair: (i64, i64)) -> Result<Value, RunFault>
    ensures { result ≡ number (pair.0 -ℤ pair.1) }
{
    within(pair.0.checked_sub(pair.1))
}

fn product(pair: (i64, i64)) -> Result<Value, RunFault>
    ensures { result ≡ number (pair.0 *ℤ pair.1) }
{
    within(pair.0.checked_mul(pair.1))
}

/// The exact quotient.
fn divided(pair: (i64, i64)) -> Result<Value, RunFault>
    ensures { result ≡ quotient pair.0 pair.1 }
{
    let (dividend, divisor) = pair;
    if divisor == 0 {
        return Err(RunFault::DivideByZero);
    }
    if divisor == -1 {
        return within(dividend.checked_neg());
    }
    if dividend % divisor != 0 {
        return Err(RunFault::Inexact);
    }
    Ok(Value::Number(dividend / divisor))
}

/// The remainder, which has the dividend's sign.
fn left_over(pair: (i64, i64)) -> Result<Value, RunFault>
    ensures { result ≡ remainder pair.0 pair.1 }
{
    let (dividend, divisor) = pair;
    if divisor == 0 {
        return Err(RunFault::DivideByZero);
    }
    if divisor == -1 {
        return Ok(Value::Number(0));
    }
    Ok(Value::Number(dividend % divisor))
}

fn more(pair: (i64, i64)) -> Result<Value, RunFault>
    ensures { result ≡ truth_is (int_lt pair.1 pair.0) }
{
    Ok(Value::Truth(pair.0 > pair.1))
}

fn at_least(pair: (i64, i64)) -> Result<Value, RunFault>
    ensures { result ≡ truth_is (int_le pair.1 pair.0) }
{
    Ok(Value::Truth(pair.0 >= pair.1))
}

fn less(pair: (i64, i64)) -> Result<Value, RunFault>
    ensures { result ≡ truth_is (int_lt pair.0 pair.1) }
{
    Ok(Value::Truth(pair.0 < pair.1))
}

fn at_most(pair: (i64, i64)) -> Result<Value, RunFault>
    ensures { result ≡ truth_is (int_le pair.0 pair.1) }
{
    Ok(Value::Truth(pair.0 <= pair.1))
}

fn both(pair: (bool, bool)) -> Result<Value, RunFault>
    ensures { result ≡ truth_is (pair.0 && pair.1) }
{
    Ok(Value::Truth(pair.0 && pair.1))
}

fn either(pair: (bool, bool)) -> Result<Value, RunFault>
    ensures { result ≡ truth_is (pair.0 || pair.1) }
{
    Ok(Value::Truth(pair.0 || pair.1))
}

fn exactly_one(pair: (bool, bool)) -> Result<Value, RunFault>
    ensures { result ≡ truth_is (xor pair.0 pair.1) }
{
    Ok(Value::Truth(pair.0 != pair.1))
}

fn is_same(first: &Value, second: &Value) -> bool
    ensures { result ≡ same_value first.now second.now }
{
    match (first, second) {
        (Value::Number(a), Value::Number(b)) => *a == *b,
        (Value::Str(a), Value::Str(b)) => a.as_str() == b.as_str(),
        (Value::Truth(a), Value::Truth(b)) => *a == *b,
        _ => false,
    }
}

/// The two texts as one, where that isn't too long.
fn joined(first: &Text, second: &Text) -> Result<Value, OpFault>
    ensures { Answers result (joined_of (Str first.now) (Str second.now)) }
{
    if second.len() > LONGEST_TEXT || first.len() > LONGEST_TEXT - second.len() {
        return Err(OpFault::Run(RunFault::TextTooLong));
    }
    let mut whole = first.copy()?;
    whole.push_str(second.as_str())?;
    Ok(Value::Str(whole))
}

/// The truth that a value stands for: a number that isn't 0, or one of four words.
fn truth_of(value: &Value) -> Result<Value, RunFault>
    ensures { result ≡ truth_of_value value.now }
{
    match value {
        Value::Number(number) => Ok(Value::Truth(*number != 0)),
        Value::Str(text) => truth_in(text.as_str()),
        Value::Truth(truth) => Ok(Value::Truth(*truth)),
    }
}

fn truth_in(text: &str) -> Result<Value, RunFault>
    ensures { result ≡ truth_in_text text.now }
{
    match text {
        "True" | "true" => Ok(Value::Truth(true)),
        "False" | "false" => Ok(Value::Truth(false)),
        _ => Err(RunFault::BadBool),
    }
}

/// The number that a value stands for: 1 or 0 for a truth, or the number that a text writes.
fn number_of(value: &Value) -> Result<Value, RunFault>
    ensures { result ≡ number_of_value value.now }
{
    match value {
        Value::Number(number) => Ok(Value::Number(*number)),
        Value::Str(text) => number_in(text.as_str()),
        Value::Truth(truth) => Ok(Value::Number(i64::from(*truth))),
    }
}

fn number_in(text: &str) -> Result<Value, RunFault>
    ensures { result ≡ number_found (signed_number text.now) }
{
    match signed(text.as_bytes()) {
        Some(number) => Ok(Value::Number(number)),
        None => Err(RunFault::BadNumber),
    }
}

/// A quotient times the divisor is the dividend, by the definition that `apply` cites: no division
/// rounds.
pub fn quotients_are_exact()
    ensures { QuotientsAreExact }
{}
