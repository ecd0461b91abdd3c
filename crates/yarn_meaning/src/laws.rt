//! The laws of this crate, each proved as the contract of a function that does nothing.
ghost use Rattle.yarn_meaning.specs.BaseLaw.{BaseTells};
ghost use Rattle.yarn_meaning.specs.Prefix.{Grows};

/// More events begin with fewer.
pub fn more_begins_with_fewer()
    ensures { Grows }
{}

/// The base table of an accepted project has the texts of all its lines and options.
pub fn base_tells_all()
    ensures { BaseTells }
{}
