//! Puts the fields of a program file behind bytes.
ghost use Rattle.std.specs.Prelude.{◌≡◌, ◌++◌, ◌<◌, ◌^◌, length, OnOk, IsUtf8};
ghost use Rattle.std.specs.Int.{w64, cast_unsigned};
ghost use Rattle.yarn_code.specs.Format.{U8, U32, U64, number_bytes, text_bytes};
ghost use Rattle.yarn_code.specs.Layout.{number_of_kind, number_of_truth};

use yarn_base::{List, Memory, Text};
use yarn_value::Kind;

pub(crate) fn put_u8(out: &mut List<u8>, number: u8) -> Result<(), Memory>
    ensures { OnOk result (out.new ≡ out.old ++ number_bytes U8 number) }
{
    out.extend_from_slice(&number.to_be_bytes())
}

pub(crate) fn put_u32(out: &mut List<u8>, number: u32) -> Result<(), Memory>
    ensures { OnOk result (out.new ≡ out.old ++ number_bytes U32 number) }
{
    out.extend_from_slice(&number.to_be_bytes())
}

pub(crate) fn put_i64(out: &mut List<u8>, number: i64) -> Result<(), Memory>
    ensures { OnOk result (out.new ≡ out.old ++ number_bytes U64 (cast_unsigned w64 number)) }
{
    out.extend_from_slice(&number.to_be_bytes())
}

pub(crate) fn put_truth(out: &mut List<u8>, truth: bool) -> Result<(), Memory>
    ensures { OnOk result (out.new ≡ out.old ++ number_bytes U8 (number_of_truth truth)) }
{
    put_u8(out, if truth { 1 } else { 0 })
}

pub(crate) fn put_kind(out: &mut List<u8>, kind: &Kind) -> Result<(), Memory>
    ensures { OnOk result (out.new ≡ out.old ++ number_bytes U8 (number_of_kind kind.now)) }
{
    let number = match kind {
        Kind::Number => 1,
        Kind::Str => 2,
        Kind::Truth => 3,
    };
    put_u8(out, number)
}

// How many parts or bytes follow.
pub(crate) fn put_count(out: &mut List<u8>, count: usize) -> Result<(), Memory>
    requires { count < 2 ^ 32 }
    ensures { OnOk result (out.new ≡ out.old ++ number_bytes U32 count) }
{
    put_u32(out, count as u32)
}

pub(crate) fn put_text(out: &mut List<u8>, text: &Text) -> Result<(), Memory>
    requires { length text.now < 2 ^ 32 }
    ensures bytes { OnOk result (out.new ≡ out.old ++ text_bytes text.now) }
    ensures utf8 { OnOk result (IsUtf8 text.now) }
{
    put_count(out, text.len())?;
    out.extend_from_slice(text.as_str().as_bytes())?;
    Ok(())
}
