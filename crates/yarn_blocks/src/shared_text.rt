//! A text that is kept once for many.
ghost use Rattle.std.specs.Prelude.{◌≡◌, IfOk};

use std::alloc::Global;
use std::marker::Model;
use std::rc::Rc;
use yarn_base::{Memory, Text};

/// A text that is kept once for all that share it. Contracts see it as its bytes.
#[derive(Debug, Drop)]
pub struct SharedText {
    inner: Rc<Text>,
}

impl Model for SharedText {
    ghost use Rattle.std.specs.Prelude.{List, ℕ};

    ghost Value = { List ℕ };

    ghost view = { λ t. t.inner.value };
}

impl SharedText {
    /// Keeps this text.
    pub fn new(alloc: Global, text: Text) -> Result<SharedText, Memory>
        ensures { IfOk result (λ t. t ≡ text) }
    {
        match Rc::new(alloc, text) {
            Ok(inner) => Ok(SharedText { inner }),
            Err(_) => Err(Memory),
        }
    }

    /// The same text once more, of which no copy is made.
    pub fn share(&self) -> Result<SharedText, Memory>
        ensures { IfOk result (λ t. t ≡ self.now) }
    {
        Ok(SharedText {
            inner: self.inner.clone()?,
        })
    }

    /// The text as std has it.
    pub fn as_str(&self) -> &str
        ensures { result.now ≡ self.now }
    {
        self.inner.as_ref().as_str()
    }

    /// A copy of the text.
    pub fn to_text(&self) -> Result<Text, Memory>
        ensures { IfOk result (λ t. t ≡ self.now) }
    {
        self.inner.as_ref().copy()
    }
}
