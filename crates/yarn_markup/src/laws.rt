//! Laws of markup (docs/language.md, Markup). Each is proved as the contract of a function that does nothing.
ghost use Rattle.yarn_markup.specs.Markup.{OneReading, OneFault, NoneRefused, EachAnswered};

/// A text has at most one reading under the same plural rules.
pub fn one_reading()
    ensures { OneReading }
{}

/// A text has at most one first fault.
pub fn one_fault()
    ensures { OneFault }
{}

/// A text with a reading is not refused.
pub fn none_refused()
    ensures { NoneRefused }
{}

/// A text without a reading is refused, so exactly these are.
pub fn each_answered()
    ensures { EachAnswered }
{}
