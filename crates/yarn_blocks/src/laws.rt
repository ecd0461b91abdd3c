//! Laws about lists of entries and of marks.
ghost use Rattle.yarn_blocks.specs.Laws.{OneBlock, BlocksAreRead, ReadAreBlocks, GoesOnWhereViable, FrontsAreViable, MarksTell, MarksHaveEntries, BlocksAreShallow};

/// One list of entries stands for at most one block.
pub fn one_block()
    ensures { OneBlock }
{}

/// The reading reads each block, as its statements.
pub fn blocks_are_read()
    ensures { BlocksAreRead }
{}

/// What is read is a block.
pub fn read_are_blocks()
    ensures { ReadAreBlocks }
{}

/// The reading goes on exactly where the entries so far are viable.
pub fn goes_on_where_viable()
    ensures { GoesOnWhereViable }
{}

/// What begins viable entries is viable: so only one entry can be the first bad one.
pub fn fronts_are_viable()
    ensures { FrontsAreViable }
{}

/// The verdict on the marks is that on the entries, with its places.
pub fn marks_tell()
    ensures { MarksTell }
{}

/// Each list of marks is that of some entries.
pub fn marks_have_entries()
    ensures { MarksHaveEntries }
{}

/// A block with nothing too deep is what `build` takes.
pub fn blocks_are_shallow()
    ensures { BlocksAreShallow }
{}
