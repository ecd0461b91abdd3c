//! A text whose parts share its bytes.
ghost use Rattle.std.specs.Prelude.{◌≡◌, ◌+◌, ◌≤◌, length, IfOk, IfErr, IsUtf8, string_bytes};
ghost use Rattle.yarn_base.specs.Part.{cut};

use crate::{Memory, Text};
use std::alloc::Global;
use std::marker::Model;
use std::rc::Rc;

/// A text that contracts see as its bytes, and whose parts are texts that share them. The rule is docs/outside.md,
/// "Texts, lists and boxes".
#[derive(Debug, Drop)]
pub struct WholeText {
    inner: Rc<String>,
}

impl Model for WholeText {
    ghost use Rattle.std.specs.Prelude.{List, ℕ, string_bytes};

    ghost Value = { List ℕ };

    ghost view = { λ w. string_bytes w.inner.value };
}

impl WholeText {
    /// Keeps the bytes of this string. An `Err` hands it back, for want of memory.
    pub fn from_string(alloc: Global, text: String) -> Result<WholeText, String>
        ensures ok { IfOk result (λ w. w ≡ string_bytes text) }
        ensures value_returned { IfErr result (λ back. back ≡ text) }
    {
        match Rc::new(alloc, text) {
            Ok(inner) => Ok(WholeText { inner }),
            Err(failed) => Err(failed.value),
        }
    }

    /// The text as std has it.
    pub fn as_str(&self) -> &str
        ensures { result.now ≡ self.now }
    {
        self.inner.as_ref().as_str()
    }

    /// The text of so many bytes, behind so many others. No copy of them is made.
    pub fn part(&self, from: u32, len: u32) -> Result<Text, Memory>
        requires within { from + len ≤ length self.now }
        requires utf8 { IsUtf8 (cut from len self.now) }
        ensures { IfOk result (λ part. part ≡ cut from len self.now) }
    {
        Ok(Text::part(&self.inner, from, len)?)
    }
}
