//! What is open, without what was read.

/// What is open.
#[derive(Clone, Copy, Debug, PartialEq, Eq)]
pub(crate) enum Level {
    /// An option: its indent, and how many options stand before it in its group, where 65 stands for more too.
    OfOption(u32, u8),
    /// A clause of an `if`.
    OfClause,
    /// The `else` of an `if`.
    OfElse,
}

/// A level, with the least indent of a line within it.
#[derive(Clone, Copy, Debug, PartialEq, Eq)]
pub(crate) struct Bounded {
    pub(crate) low: u64,
    pub(crate) level: Level,
}
