//! What holds of every line of a plural file, of every file, and of the default one.
ghost use Rattle.yarn_plural.specs.English.{EnglishIsWritten};
ghost use Rattle.yarn_plural.specs.Reading.{FileIsOneThing};
ghost use Rattle.yarn_plural.specs.Rules.{LineIsOneThing};

/// A line is at most one thing: nothing, the beginning of a form, or one rule.
pub fn line_is_one_thing()
    ensures { LineIsOneThing }
{}

/// A file is one table, or is refused with one fault at one line. So a file of which each line is read, and in which
/// no form has a category twice, isn't refused.
pub fn file_is_one_thing()
    ensures { FileIsOneThing }
{}

/// The default table is that of its text in docs/formats.md, Plural rules.
pub fn english_is_written()
    ensures { EnglishIsWritten }
{}
