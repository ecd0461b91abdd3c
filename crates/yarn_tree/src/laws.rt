//! Laws that tie the reading of files to what they stand for (docs/language.md, Nodes and Refusals of a project).
//! Each is proved as the contract of a function that does nothing but cite the law of items.
ghost use Rattle.yarn_tree.specs.Laws.{ReadExactly, FileReadExactly, OneProject, OneFile, FileRefusedExactly, TooMuchIsRight, BadUtf8IsRight, LineTooLongIsRight, BadLineIsRight, BadStructureIsRight, TooDeepIsRight, TooManyIsRight, FractionIsRight, NumberTooLargeIsRight, BadTitleIsRight, DuplicateTitleIsRight, ReservedNameIsRight, DuplicateDeclareIsRight, UnknownNodeIsRight, UnknownFunctionIsRight, WrongArgumentsIsRight, DuplicateLineIdIsRight};

use yarn_items::items_are_found;

/// A project is read exactly where it isn't too much, its files have these lines, and these are accepted: their bodies are
/// blocks within the limits, titles, names and ids are fine, and no number has a fraction or is too large.
pub fn read_exactly()
    ensures { ReadExactly }
{
    items_are_found();
}

/// A file is read exactly where it isn't too much, it has these lines, and they are within the limits.
pub fn file_read_exactly()
    ensures { FileReadExactly }
{
    items_are_found();
}

/// A file that is read alone is refused exactly by the first of the kinds that stands somewhere in it, at its first place.
pub fn file_refused_exactly()
    ensures { FileRefusedExactly }
{
    items_are_found();
}

/// Files stand for at most one project.
pub fn one_project()
    ensures { OneProject }
{
    items_are_found();
}

/// A file stands for at most one tree, with ids and without.
pub fn one_file()
    ensures { OneFile }
{
    items_are_found();
}

/// `TooMuch` stands exactly at the first file with which files are too much.
pub fn too_much_is_right()
    ensures { TooMuchIsRight }
{}

/// `BadUtf8` stands exactly at the first line that isn't UTF-8.
pub fn bad_utf8_is_right()
    ensures { BadUtf8IsRight }
{}

/// `LineTooLong` stands exactly at the first line of more than 65,536 bytes.
pub fn line_too_long_is_right()
    ensures { LineTooLongIsRight }
{}

/// `BadLine` stands exactly at the first line that is no item in its mode.
pub fn bad_line_is_right()
    ensures { BadLineIsRight }
{
    items_are_found();
}

/// `BadStructure` stands exactly at the first line, of the first file that doesn't stand for nodes whose bodies are blocks,
/// with which the items so far begin no such file; and at the file's end place, where a file begins with all of them.
pub fn bad_structure_is_right()
    ensures { BadStructureIsRight }
{
    items_are_found();
}

/// `TooDeep` stands exactly at the first line of a statement of depth over 64.
pub fn too_deep_is_right()
    ensures { TooDeepIsRight }
{
    items_are_found();
}

/// `TooMany` stands exactly at the earliest of four places: the first line with more than 16 substitutions, the first 65th
/// option of a group, the `---` of the 65,537th node, and the first use of the 65,537th variable.
pub fn too_many_is_right()
    ensures { TooManyIsRight }
{
    items_are_found();
}

/// `Fraction` stands exactly at the first line with a number that has a fraction.
pub fn fraction_is_right()
    ensures { FractionIsRight }
{
    items_are_found();
}

/// `NumberTooLarge` stands exactly at the first line with a number above 9223372036854775807.
pub fn number_too_large_is_right()
    ensures { NumberTooLargeIsRight }
{
    items_are_found();
}

/// `BadTitle` stands exactly at the first second title of a node, title that is no name, or `---` behind no title.
pub fn bad_title_is_right()
    ensures { BadTitleIsRight }
{
    items_are_found();
}

/// `DuplicateTitle` stands exactly at the first header `title` that has the value of an earlier one.
pub fn duplicate_title_is_right()
    ensures { DuplicateTitleIsRight }
{
    items_are_found();
}

/// `ReservedName` stands exactly at the first use of a variable whose name begins with `$Yarn.Internal.`.
pub fn reserved_name_is_right()
    ensures { ReservedNameIsRight }
{
    items_are_found();
}

/// `DuplicateDeclare` stands exactly at the first declaration of a variable that an earlier one declares.
pub fn duplicate_declare_is_right()
    ensures { DuplicateDeclareIsRight }
{
    items_are_found();
}

/// `UnknownNode` stands exactly at the first jump to a title that no node has.
pub fn unknown_node_is_right()
    ensures { UnknownNodeIsRight }
{
    items_are_found();
}

/// `UnknownFunction` stands exactly at the first call of a function that is no builtin and has no signature.
pub fn unknown_function_is_right()
    ensures { UnknownFunctionIsRight }
{
    items_are_found();
}

/// `WrongArguments` stands exactly at the first call with another number of arguments than its function has.
pub fn wrong_arguments_is_right()
    ensures { WrongArgumentsIsRight }
{
    items_are_found();
}

/// `DuplicateLineId` stands exactly at the first line or option whose id an earlier one has.
pub fn duplicate_line_id_is_right()
    ensures { DuplicateLineIdIsRight }
{
    items_are_found();
}
