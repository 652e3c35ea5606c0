//! Which coverage is expected of a run, and that data in a heap tell it.
#![tactic(auto)]

ghost use Rattle.cov_expected.specs.Laws.{TellsData, TellsFiles, TellsEntries};

/// What a heap holds as objects and arrays of their own is read back as data, and the data of files are their coverage.
pub fn told()
    ensures data { TellsData }
    ensures files { TellsFiles }
{}

/// A count that goes up by one in the data of a file is one entry more of its construct.
pub fn entries()
    ensures { TellsEntries }
{}
