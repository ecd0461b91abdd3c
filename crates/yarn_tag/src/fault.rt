//! Why a file isn't tagged.
use yarn_base::Memory;
use yarn_tree::Refusal;

/// Why a file isn't tagged: the first of these (docs/language.md, Tags).
#[derive(Clone, Copy, Debug, PartialEq, Eq)]
pub enum TagFault {
    /// The file is refused as `read_file` refuses it.
    Refused(Refusal),
    /// A number above 268,435,455 is needed.
    IdsUsedUp,
    /// The first line that would have more than 65,536 bytes, from 1; 0 where the file would have more than 4,194,304.
    TooLong(u32),
    /// Want of memory.
    Memory,
}

impl From<Memory> for TagFault {
    ghost use Rattle.std.specs.Prelude.{◌≡◌};
    ghost use Rattle.yarn_tag.specs.declared.fault.TagFault.TheVariants.{Memory};

    ghost from_gives = { λ _ e. e ≡ Memory };

    fn from(_: Memory) -> TagFault {
        TagFault::Memory
    }
}
