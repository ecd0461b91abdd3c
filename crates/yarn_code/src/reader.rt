//! Takes the fields of a program file from the front of bytes.
ghost use Rattle.std.specs.Prelude.{◌≡◌, Ok, Err, length, if◌then◌else◌, IfOk};
ghost use Rattle.yarn_code.specs.declared.fault.Stop.TheVariants.{Left};
ghost use Rattle.yarn_code.specs.Decoding.{Gives};
ghost use Rattle.yarn_code.specs.Format.{U8, U32, U64};
ghost use Rattle.yarn_code.specs.FormatReading.{any_number, any_text, number_at, text_at, read};
ghost use Rattle.yarn_code.specs.Layout.{is_few, is_short, is_template, kind_field, truth, whole};

use crate::fault::Stop;
use std::alloc::Global;
use std::str;
use yarn_base::{Memory, Text};
use yarn_value::{Kind, TemplateFault, read_template};

// The field that begins with these bytes is refused, unless it passes.
pub(crate) fn refuse_unless(passes: bool, field: &[u8]) -> Result<(), Stop>
    ensures { result ≡ (if passes then Ok tt else Err (Left (length field.now))) }
{
    if passes {
        Ok(())
    } else {
        Err(Stop::Left(field.len()))
    }
}

#[tactic(auto, unfolding(crate::specs::FormatReading::any_number))]
pub(crate) fn read_u8(bytes: &[u8]) -> Result<(u8, &[u8]), Stop>
    ensures { Gives (λ x. (x.0, x.1.now)) result (any_number U8 bytes.now) }
{
    match bytes {
        [] => Err(Stop::Left(0)),
        [number, rest @ ..] => Ok((*number, rest)),
    }
}

#[tactic(auto, unfolding(crate::specs::FormatReading::any_number))]
pub(crate) fn read_u32(bytes: &[u8]) -> Result<(u32, &[u8]), Stop>
    ensures { Gives (λ x. (x.0, x.1.now)) result (any_number U32 bytes.now) }
{
    if bytes.len() < 4 {
        return Err(Stop::Left(bytes.len()));
    }
    let (front, rest) = bytes.split_at(4);
    let number = u32::from_be_bytes([front[0], front[1], front[2], front[3]]);
    Ok((number, rest))
}

#[tactic(auto, unfolding(crate::specs::FormatReading::any_number))]
fn read_u64(bytes: &[u8]) -> Result<(u64, &[u8]), Stop>
    ensures { Gives (λ x. (x.0, x.1.now)) result (any_number U64 bytes.now) }
{
    if bytes.len() < 8 {
        return Err(Stop::Left(bytes.len()));
    }
    let (front, rest) = bytes.split_at(8);
    let number = u64::from_be_bytes([
        front[0], front[1], front[2], front[3], front[4], front[5], front[6], front[7],
    ]);
    Ok((number, rest))
}

pub(crate) fn read_i64(bytes: &[u8]) -> Result<(i64, &[u8]), Stop>
    ensures { Gives (λ x. (x.0, x.1.now)) result (read whole bytes.now) }
{
    let (number, rest) = read_u64(bytes)?;
    Ok((number.cast_signed(), rest))
}

// A number of parts that is at most 16.
pub(crate) fn read_few(bytes: &[u8]) -> Result<(u8, &[u8]), Stop>
    ensures { Gives (λ x. (x.0, x.1.now)) result (number_at U8 is_few bytes.now) }
{
    let (count, rest) = read_u8(bytes)?;
    refuse_unless(count <= 16, bytes)?;
    Ok((count, rest))
}

pub(crate) fn read_truth(bytes: &[u8]) -> Result<(bool, &[u8]), Stop>
    ensures { Gives (λ x. (x.0, x.1.now)) result (read truth bytes.now) }
{
    let (number, rest) = read_u8(bytes)?;
    refuse_unless(number <= 1, bytes)?;
    Ok((number == 1, rest))
}

pub(crate) fn read_kind(bytes: &[u8]) -> Result<(Kind, &[u8]), Stop>
    ensures { Gives (λ x. (x.0, x.1.now)) result (read kind_field bytes.now) }
{
    let (number, rest) = read_u8(bytes)?;
    let kind = match number {
        1 => Kind::Number,
        2 => Kind::Str,
        3 => Kind::Truth,
        _ => return Err(Stop::Left(bytes.len())),
    };
    Ok((kind, rest))
}

#[tactic(auto, unfolding(crate::specs::FormatReading::any_text))]
pub(crate) fn read_str(bytes: &[u8]) -> Result<(&str, &[u8]), Stop>
    ensures { Gives (λ x. (x.0.now, x.1.now)) result (any_text bytes.now) }
{
    let (len, rest) = read_u32(bytes)?;
    let len = len as usize;
    if rest.len() < len {
        return Err(Stop::Left(bytes.len()));
    }
    let (text, rest) = rest.split_at(len);
    match str::from_utf8(text) {
        Ok(text) => Ok((text, rest)),
        Err(_) => Err(Stop::Left(bytes.len())),
    }
}

pub(crate) fn read_text(alloc: Global, bytes: &[u8]) -> Result<(Text, &[u8]), Stop>
    ensures { Gives (λ x. (x.0, x.1.now)) result (any_text bytes.now) }
{
    let (text, rest) = read_str(bytes)?;
    Ok((Text::from_str(alloc, text)?, rest))
}

// A text of at most 65,536 bytes.
pub(crate) fn read_short(alloc: Global, bytes: &[u8]) -> Result<(Text, &[u8]), Stop>
    ensures { Gives (λ x. (x.0, x.1.now)) result (text_at is_short bytes.now) }
{
    let (text, rest) = read_str(bytes)?;
    refuse_unless(text.len() <= 65_536, bytes)?;
    Ok((Text::from_str(alloc, text)?, rest))
}

// A template with so many holes.
pub(crate) fn read_filled(alloc: Global, holes: u8, bytes: &[u8]) -> Result<(Text, &[u8]), Stop>
    ensures { Gives (λ x. (x.0, x.1.now)) result (text_at (is_template holes) bytes.now) }
{
    let (text, rest) = read_text(alloc, bytes)?;
    refuse_unless(is_template(alloc, &text, holes)?, bytes)?;
    Ok((text, rest))
}

fn is_template(alloc: Global, text: &Text, holes: u8) -> Result<bool, Memory>
    ensures { IfOk result (λ answer. answer ≡ is_template holes text.now) }
{
    match read_template(alloc, text, holes as u32) {
        Ok(_) => Ok(true),
        Err(TemplateFault::NotTemplate) => Ok(false),
        Err(TemplateFault::Memory) => Err(Memory),
    }
}
