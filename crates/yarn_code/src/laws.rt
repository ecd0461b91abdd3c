//! What holds of instructions and of program files, proved as the contracts of functions that do nothing.
ghost use Rattle.yarn_code.specs.Listed.{DoAsListed};
ghost use Rattle.yarn_code.specs.Listing.{OneListing};
ghost use Rattle.yarn_code.specs.ListingText.{WrittenOut};
ghost use Rattle.yarn_code.specs.SpellingLaws.{OneSpelling};

/// Each instruction does as its row says (docs/instructions.md, The instructions).
pub fn instructions_do_as_listed()
    ensures { DoAsListed }
{}

/// Bytes spell one program or are refused at one place (docs/formats.md, Program files).
pub fn programs_have_one_spelling()
    ensures { OneSpelling }
{}

/// A program has one listing (docs/formats.md, Listing).
pub fn programs_have_one_listing()
    ensures { OneListing }
{}

/// The listing of a program written out is what the table of opcodes tells, and nothing else is.
pub fn listings_are_written_out()
    ensures { WrittenOut }
{}
