//! The text of a line with its values put in.
ghost use Rattle.std.specs.Prelude.{◌≡◌, ◌++◌, OnOk};
ghost use Rattle.yarn_meaning.specs.Filled.{filled};

use memchr::memchr2;
use std::alloc::Global;
use yarn_base::{List, Memory, Text};
use yarn_value::{TemplateFault, Value, expand, read_template};

/// Puts the text with its values behind these bytes (docs/formats.md, Templates).
pub(crate) fn push_filled(
    alloc: Global,
    bytes: &mut Vec<u8>,
    text: &Text,
    values: &List<Value>,
) -> Result<(), Memory>
    ensures { OnOk result (bytes.new.items ≡ bytes.old.items ++ filled text.now values.now) }
{
    let own = text.as_str().as_bytes();
    if memchr2(b'\\', b'{', own).is_none() {
        bytes.extend_from_slice(own)?;
        return Ok(());
    }
    push_template(alloc, bytes, text, values)
}

// The same of a text that may have placeholders or escaped braces; one that is no template stands as it is.
#[inline(never)]
fn push_template(
    alloc: Global,
    bytes: &mut Vec<u8>,
    text: &Text,
    values: &List<Value>,
) -> Result<(), Memory>
    ensures { OnOk result (bytes.new.items ≡ bytes.old.items ++ filled text.now values.now) }
{
    let holes = u32::try_from(values.len()).map_err(|_| Memory)?;
    match read_template(alloc, text, holes) {
        Ok(template) => {
            let full = expand(alloc, &template, values)?;
            bytes.extend_from_slice(full.as_str().as_bytes())?;
        }
        Err(TemplateFault::NotTemplate) => bytes.extend_from_slice(text.as_str().as_bytes())?,
        Err(TemplateFault::Memory) => return Err(Memory),
    }
    Ok(())
}
