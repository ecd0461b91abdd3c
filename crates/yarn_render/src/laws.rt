//! Laws of what is written (docs/language.md, The transcript). Each is proved as the contract of a function that does nothing.
ghost use Rattle.yarn_render.specs.Laws.{EachRendered, EachTranscript, OneRendering, OneTranscript};

/// An event is written as one text at most, and events have one transcript at most, with the same table and plural rules.
pub fn one_rendering()
    ensures event { OneRendering }
    ensures transcript { OneTranscript }
{}

/// An event is written as some text where the table has its ids with as many holes as there are values, and events have a
/// transcript where it has theirs.
pub fn each_rendered()
    ensures event { EachRendered }
    ensures transcript { EachTranscript }
{}
