//! How the code of counters runs, over the whole meaning.
#![tactic(auto)]

ghost use Rattle.js_counter.specs.Steady.{CallsSteadily, CountsTwo, CountsThree, HoldsTicked};
ghost use Rattle.js_counter.specs.WorkedFile.{Opens};
ghost use Rattle.js_counter.specs.Keys.{SpelledInDecimal, IndicesRead, KeysDiffer, CountsFound};
ghost use Rattle.js_counter.specs.Laws.{ReadsBack, Stays, TellsMore, StaysReady, RunsOne, CountsOn};
ghost use Rattle.js_counter.specs.Starts.{StartsFile, BeginsFresh, StartsFirst, StartsOther, StartsAgain};
ghost use Rattle.js_counter.specs.Literals.{LiteralsMake};
ghost use Rattle.js_counter.specs.Preamble.{OpensFirst, OpensOther, OpensAnew, OpensAgain};

/// A counter whose file's function has been replaced: it stops where no step is left; with one it takes it, comes to the old number,
/// and the data tell one more there.
pub fn steady()
    ensures calls { CallsSteadily }
    ensures two { CountsTwo }
    ensures three { CountsThree }
    ensures ticked { HoldsTicked }
{}

/// A literal of data makes them of new objects, without a step.
pub fn literals()
    ensures { LiteralsMake }
{}

/// The first call of a file's function: it puts the file's data under its path, unless data with its hash are there, leaves those of all
/// other paths, and is replaced by the function that only gives them.
pub fn opening()
    ensures first { OpensFirst }
    ensures other { OpensOther }
    ensures anew { OpensAnew }
    ensures again { OpensAgain }
{}

/// Data in a heap: they are read back, stay where their objects stay, and tell one more where a counter writes; the replaced function
/// stays where nothing that it is found by changes; and what takes one step does so in the runs that programs have.
pub fn data_laws()
    ensures back { ReadsBack }
    ensures stays { Stays }
    ensures more { TellsMore }
    ensures ready { StaysReady }
    ensures runs { RunsOne }
    ensures on { CountsOn }
{}

/// The start of a file that has counters takes the step of its function's first call, and goes on at the file's own statements.
pub fn starting()
    ensures start { StartsFile }
    ensures begins { BeginsFresh }
    ensures first { StartsFirst }
    ensures other { StartsOther }
    ensures again { StartsAgain }
{}

/// The premises hold of a program.
pub fn example()
    ensures { Opens }
{}

/// Numbers in decimal are read as they are spelled, and are different keys.
pub fn numerals()
    ensures spelled { SpelledInDecimal }
    ensures indices { IndicesRead }
    ensures differ { KeysDiffer }
    ensures found { CountsFound }
{}
