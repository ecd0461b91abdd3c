//! Why a project is refused.
use yarn_base::{Memory, Place};

/// Why a project is refused (docs/language.md, Refusals of a project). The first of these that has a
/// place decides, at its first place.
#[derive(Clone, Copy, Debug, PartialEq, Eq)]
pub enum RefusalKind {
    /// The 257th file, a file of more than 4,194,304 bytes, or the file with which all have more than 33,554,432.
    TooMuch,
    /// A line that is no UTF-8.
    BadUtf8,
    /// A line of more than 65,536 bytes.
    LineTooLong,
    /// A line that is nothing in its place, as `hello` before a `---`.
    BadLine,
    /// A line that stands where it may not, as a `===` without a `---`, or an `endif` without an `if`.
    BadStructure,
    /// A statement of depth over 64.
    TooDeep,
    /// A line with more than 16 substitutions, the 65th option of a group, the 65,537th node or variable.
    TooMany,
    /// A number with a fraction, as `1.5`.
    Fraction,
    /// A number above 9223372036854775807.
    NumberTooLarge,
    /// A node without a title, a second title of a node, or a title that is no name.
    BadTitle,
    /// A title that an earlier node has.
    DuplicateTitle,
    /// A variable that begins with `$Yarn.Internal.`.
    ReservedName,
    /// A second `declare` of a variable.
    DuplicateDeclare,
    /// A jump to a title that no node has.
    UnknownNode,
    /// A function that is no builtin and that the game doesn't have.
    UnknownFunction,
    /// A call with another number of arguments than the function has.
    WrongArguments,
    /// A line or an option with an id that an earlier one has.
    DuplicateLineId,
}

/// A refusal and where it stands.
#[derive(Clone, Copy, Debug, PartialEq, Eq)]
pub struct Refusal {
    pub kind: RefusalKind,
    pub place: Place,
}

/// Why a project has no tree.
#[derive(Clone, Copy, Debug, PartialEq, Eq)]
pub enum ProjectFault {
    Refused(Refusal),
    /// Want of memory.
    Memory,
}

impl From<Memory> for ProjectFault {
    ghost use Rattle.std.specs.Prelude.{◌≡◌};
    ghost use Rattle.yarn_tree.specs.declared.refusal.ProjectFault.TheVariants.{Memory};

    ghost from_gives = { λ _ e. e ≡ Memory };

    fn from(_: Memory) -> ProjectFault {
        ProjectFault::Memory
    }
}
