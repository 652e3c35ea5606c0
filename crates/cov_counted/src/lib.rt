//! The counters of accepted sources.
#![tactic(auto)]

ghost use Rattle.cov_counted.specs.Literals.{SpellsUnits, FilesHaveLiterals};
ghost use Rattle.cov_counted.specs.Accepted.{NumbersFirst, AcceptedTellable, AcceptedPrepared};
ghost use Rattle.cov_counted.specs.Entries.{CountsEntries};

/// The literals of a file's data.
pub fn literals()
    ensures units { SpellsUnits }
    ensures files { FilesHaveLiterals }
{
    js_counter::numerals();
}

/// Where each file's functions begin in a program with its counters.
pub fn numbering()
    ensures { NumbersFirst }
{}

/// The data of a file's coverage, with one more for each entry of a log, are those of the coverage with its entries.
pub fn entries()
    ensures { CountsEntries }
{
    cov_expected::entries();
}

/// The coverage that accepted sources begin with can be told, and their counters are as they are asked for.
pub fn accepted()
    ensures tellable { AcceptedTellable }
    ensures prepared { AcceptedPrepared }
{
    js_bounds::bounds();
    js_suits::suits();
    numbering();
}
