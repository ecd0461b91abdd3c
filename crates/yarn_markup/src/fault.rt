//! Why a text with markup is refused.
use yarn_base::Memory;

/// Why a text has no reading. Places are in Unicode scalar values of the given text, from 0.
#[derive(Clone, Copy, Debug, PartialEq, Eq)]
pub enum MarkupFault {
    /// A `[` there begins no tag, or its tag closes nothing, or it opens an attribute that is never closed.
    BadMarkup(u32),
    /// A tag there has no text for its value.
    NoChoice(u32),
    /// Want of memory.
    Memory,
}

impl From<Memory> for MarkupFault {
    ghost use Rattle.std.specs.Prelude.{◌≡◌};
    ghost use Rattle.yarn_markup.specs.declared.fault.MarkupFault.TheVariants.{Memory};

    ghost from_gives = { λ _ e. e ≡ Memory };

    fn from(_: Memory) -> MarkupFault {
        MarkupFault::Memory
    }
}
