ghost use Rattle.js_meaning.specs.Shapes.{GetsHeld, HoldsName, BlocksAlone, OneAlone};
ghost use Rattle.js_meaning.specs.Laws.{RunsAsEvaluated, Composes, StopsBefore, ChargesOne, EndsForGood, GoesOn, Follows, TurnsByStep, TurnsAgain, ChoosesArm, NotesConstruct, RunsWithoutCounting, EndsPlainly, NamesFunctions};
ghost use Rattle.js_meaning.specs.Points.{RunsFromPoint, PointsOnward, ReadsName, WritesName, InitializesName, MakesScope, AsksCall, TakesStep};
ghost use Rattle.js_meaning.specs.VarNames.{MeetsVarNames};
ghost use Rattle.js_meaning.specs.Counted.{MarksConstructs, MarksEach, MarksEnter, MarksOnce};
ghost use Rattle.js_tree.specs.Unmarked.{UnmarksLinked};

/// Of one computation after another, the second has what the first left of its steps.
pub fn composition()
    ensures runs { RunsAsEvaluated }
    ensures composes { Composes }
{}

/// A step is asked for before anything of what it is for happens, and one only.
pub fn charging()
    ensures stops { StopsBefore }
    ensures one { ChargesOne }
    ensures construct { NotesConstruct }
{}

/// An ended run stays as it is with more steps; the output and the log of one that is going begin
/// those of the longer run.
pub fn more_steps()
    ensures ended { EndsForGood }
    ensures going { GoesOn }
{}

/// A program without counting does in as many steps less as were charged for counting what it does with counting: it ends alike,
/// and where the counted run is going on, what that printed begins what the other prints.
pub fn without_counting()
    ensures alike { RunsWithoutCounting }
    ensures told { EndsPlainly }
{}

/// The meaning of a sequence, a loop and a choice, as one reads them.
pub fn forms()
    ensures follows { Follows }
    ensures test { TurnsByStep }
    ensures turn { TurnsAgain }
    ensures arm { ChoosesArm }
{}

/// Without its marks a counted file is the file that isn't counted, and each function of a program has the number by which it is
/// found. The marks of a counted file are those of its constructs: each mark of each of them stands there once, and no other does,
/// and what it enters stands where the list of constructs has it.
pub fn marks()
    ensures unmarked { UnmarksLinked }
    ensures functions { NamesFunctions }
    ensures entered { MarksEnter }
    ensures constructs { MarksConstructs }
    ensures once { MarksOnce }
    ensures each { MarksEach }
{}

/// What an instrumented text has in another shape than its source means the same: a function that is held by a property of its name is the
/// named function, but for one more object, and a block that declares nothing, or a list of one statement, is what is in it.
pub fn shapes()
    ensures held { GetsHeld }
    ensures name { HoldsName }
    ensures block { BlocksAlone }
    ensures one { OneAlone }
{}

/// A walk through a body meets the names that `var` declares in it.
pub fn names()
    ensures met { MeetsVarNames }
{}

/// A computation is told by where it comes to without a step, and goes on from there: at a name that is there it reads or writes it, a
/// scope is one environment more, and a call of a function of the program asks for one step.
pub fn points()
    ensures runs { RunsFromPoint }
    ensures onward { PointsOnward }
    ensures reads { ReadsName }
    ensures writes { WritesName }
    ensures initializes { InitializesName }
    ensures scope { MakesScope }
    ensures asks { AsksCall }
    ensures takes { TakesStep }
{}
