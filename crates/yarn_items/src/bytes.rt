//! Parts of a line as texts and names.
ghost use Rattle.std.specs.Prelude.{◌≡◌, IfOk, IsUtf8};
ghost use Rattle.yarn_items.specs.Name.{IsNameIn};

use std::alloc::Global;
use std::str;
use yarn_base::{Memory, Text, is_name_str};

/// The bytes as a text.
pub(crate) fn text_of(bytes: &[u8]) -> &str
    requires { IsUtf8 bytes.now }
    ensures { result.now ≡ bytes.now }
{
    match str::from_utf8(bytes) {
        Ok(text) => text,
        Err(_) => unreachable!(),
    }
}

/// A text of these bytes.
pub(crate) fn copied(alloc: Global, bytes: &[u8]) -> Result<Text, Memory>
    requires { IsUtf8 bytes.now }
    ensures { IfOk result (λ text. text ≡ bytes.now) }
{
    Text::from_str(alloc, text_of(bytes))
}

/// The bytes as a name, where they are one.
#[tactic(auto, using(crate::proofs::NameLemmas::names))]
pub(crate) fn name_in(bytes: &[u8]) -> Option<&str>
    ensures { IsNameIn bytes.now result }
{
    match str::from_utf8(bytes) {
        Ok(text) => { if is_name_str(text) { Some(text) } else { None } }
        Err(_) => None,
    }
}
