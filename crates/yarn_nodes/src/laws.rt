//! Laws that tie what is read of a file's lines to what they stand for (docs/language.md, Nodes, Structure of a body and
//! Refusals of a project). Each is proved as the contract of a function that does nothing but cite the laws of lines.
ghost use Rattle.yarn_nodes.specs.Laws.{FilesStand, StandingIsRead, LinesAreNoted, MisplacedIsNoted, BlocksAreNoted, TitlesAreNoted};

use yarn_items::items_are_found;

/// Where no line is bad or misplaced, a file stands for what is read of it, whose bodies are blocks.
pub fn files_stand()
    ensures { FilesStand }
{
    items_are_found();
}

/// What a file stands for, where its bodies are blocks, is read of it, and no line is bad or misplaced.
pub fn standing_is_read()
    ensures { StandingIsRead }
{
    items_are_found();
}

/// The first line that is no item is noted, and the first with more than 16 substitutions, with a number that has a
/// fraction, and with a number above 9223372036854775807.
pub fn lines_are_noted()
    ensures { LinesAreNoted }
{
    items_are_found();
}

/// The line that is noted as misplaced is the first with which the items so far begin no file whose bodies are blocks;
/// and the file's end, where a file begins with all of them.
pub fn misplaced_is_noted()
    ensures { MisplacedIsNoted }
{
    items_are_found();
}

/// The first line that is too deep is noted, and the first 65th option of a group, of what the file stands for.
pub fn blocks_are_noted()
    ensures { BlocksAreNoted }
{
    items_are_found();
}

/// The first bad title is noted: a second title of a node, a title that is no name, and a `---` behind no title. Where
/// there is none, the titles that are read are those of all headers `title`.
pub fn titles_are_noted()
    ensures { TitlesAreNoted }
{
    items_are_found();
}
