//! Values, their kinds and their texts.
ghost use Rattle.std.specs.Prelude.{◌≡◌, IfOk, OnErr};
ghost use Rattle.std.specs.Fmt.{signed_decimal};
ghost use Rattle.yarn_value.specs.Values.{kind_of, text_of_value};
ghost use Rattle.yarn_value.specs.declared.value.Kind.TheVariants as kind;

use std::alloc::Global;
use yarn_base::{Memory, Text};

/// A value of the language: a whole number of 64 bits, a text or a truth.
#[derive(Debug, Drop, PartialEq, Eq)]
pub enum Value {
    Number(i64),
    Str(Text),
    Truth(bool),
}

/// What a value is.
#[derive(Clone, Copy, Debug, PartialEq, Eq)]
pub enum Kind {
    Number,
    Str,
    Truth,
}

impl Value {
    /// The kind of the value.
    pub fn kind(&self) -> Kind
        ensures { result ≡ kind_of self.now }
    {
        match self {
            Value::Number(_) => Kind::Number,
            Value::Str(_) => Kind::Str,
            Value::Truth(_) => Kind::Truth,
        }
    }

    /// An equal value. The only error is want of memory, which a number or a truth never meets.
    pub fn copy(&self) -> Result<Value, Memory>
        ensures equal { IfOk result (λ copy. copy ≡ self.now) }
        ensures only_of_a_text { OnErr result (kind_of self.now ≡ kind.Str) }
    {
        match self {
            Value::Number(number) => Ok(Value::Number(*number)),
            Value::Str(text) => Ok(Value::Str(text.copy()?)),
            Value::Truth(truth) => Ok(Value::Truth(*truth)),
        }
    }
}

/// The text of a value, as a text shows it: decimal digits with `-` before a negative number,
/// the text itself, `True` or `False` (docs/language.md). The only error is want of memory.
pub fn text_of(alloc: Global, value: &Value) -> Result<Text, Memory>
    ensures { IfOk result (λ text. text ≡ text_of_value value.now) }
{
    match value {
        Value::Number(number) => decimal(alloc, *number),
        Value::Str(text) => text.copy(),
        Value::Truth(true) => Text::from_str(alloc, "True"),
        Value::Truth(false) => Text::from_str(alloc, "False"),
    }
}

fn decimal(alloc: Global, number: i64) -> Result<Text, Memory>
    ensures { IfOk result (λ text. text ≡ signed_decimal number) }
{
    let digits = format!(in alloc; "{number}")?;
    Text::from_str(alloc, digits.as_str())
}
