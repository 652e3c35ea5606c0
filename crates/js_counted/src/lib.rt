//! The counters of a program's files are counters as the law of the two runs asks for them. Definitions and proofs.
#![tactic(auto)]

ghost use Rattle.js_counted.specs.Numbers.{EntriesCounted};
ghost use Rattle.js_counted.specs.Preambles.{PreambleLinked, PreambleCodes};
ghost use Rattle.js_counted.specs.Parts.{CountersKeep, CountersBegin, CountersCount, FilesBegin, FilesStart, CountersRun};

/// Each number of a file's data grows by the entries of its mark.
pub fn entries()
    ensures { EntriesCounted }
{}

/// What the program with its counters holds stays while nothing touches it, and tells the coverage; it holds where a program begins.
pub fn keeping()
    ensures stays { CountersKeep }
    ensures begins { CountersBegin }
{}

/// The code of a mark's counter takes a step, and the coverage has one entry more.
pub fn counting()
    ensures { CountersCount }
{}

/// What stands before a file's statements is the preamble, as a program's functions are numbered: its first function, and the one that
/// takes its place.
pub fn preambles()
    ensures linked { PreambleLinked }
    ensures codes { PreambleCodes }
{}

/// A counted file begins with its directives, its function, whose name is none of its own, and a call of it.
pub fn beginning_of_files()
    ensures { FilesBegin }
{}

/// It starts in a step, which is that of its function's first call; then it is at its own statements, and the coverage has it.
pub fn starting()
    ensures { FilesStart }
{}

/// So the program with its counters ends as the source does, prints what it prints, and its coverage has the entries of each mark.
pub fn running()
    ensures { CountersRun }
{}
