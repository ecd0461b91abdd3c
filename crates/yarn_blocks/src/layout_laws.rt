//! Laws of the lines of statements.
ghost use Rattle.yarn_blocks.specs.LayoutLaws.{LaidStands, LaidKeepsLines, LinesTellNothing, OneTree};

/// The statements of a block, laid out at any depth, are a block that stands for them.
pub fn laid_stands()
    ensures { LaidStands }
{}

/// Laid out, they have the contents of the entries of the block, in their order.
pub fn laid_keeps_lines()
    ensures { LaidKeepsLines }
{}

/// Entries that differ in numbers of lines alone stand for statements that differ in these alone.
pub fn lines_tell_nothing()
    ensures { LinesTellNothing }
{}

/// Two trees that are the same plain data are the same tree.
pub fn one_tree()
    ensures { OneTree }
{}
