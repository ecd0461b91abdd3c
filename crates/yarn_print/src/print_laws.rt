//! Laws that tie what is printed of a file to the file (docs/language.md, Canonical text).
ghost use Rattle.yarn_print.specs.PrintLaws.{PrintedStands, PrintsTheSame};

/// What is printed of a file stands for the same file but for numbers of lines, where none of its lines is too long.
pub fn printed_stands()
    ensures { PrintedStands }
{}

/// Files that are the same but for numbers of lines are printed the same.
pub fn prints_the_same()
    ensures { PrintsTheSame }
{}
