//! What holds of every line of a variables file.
ghost use Rattle.yarn_store.specs.LineReading.{LinesAreRead};

/// `pair_of`, by which files are read, reads exactly the lines that stand for a pair, as that pair.
pub fn lines_are_read()
    ensures { LinesAreRead }
{}
