//! The run of a counted program and that of the program with its counters go in step. Definitions and proofs.
#![tactic(auto)]

ghost use Rattle.js_lockstep.specs.Programs.{RunsInStepByTests, CodesStandByTests, LinksAgain};
ghost use Rattle.js_lockstep.specs.Opened.{OpensFiles, OpensInOrder, LinksFile};
ghost use Rattle.js_lockstep.specs.Unchanged.{LeavesUnmarked};

/// The program with its counters ends as the source does, prints what it prints, and counts its entries, whatever the counters are, if
/// each does in one step what is asked of it.
pub fn runs()
    ensures { RunsInStepByTests }
{}

/// A function and the one that stands for it are found at their numbers.
pub fn functions()
    ensures { CodesStandByTests }
{}

/// A counted file with what stands before its statements is the rewritten file, and its functions are those before it, and then its own.
pub fn openings()
    ensures files { OpensFiles }
    ensures order { OpensInOrder }
{}

/// Where a program with its counters is linked: statements keep the numbers of their functions, a counted file is as it is but for what
/// stands before its statements, and what is linked without marks stays as it is but for the numbers.
pub fn links()
    ensures again { LinksAgain }
    ensures file { LinksFile }
    ensures unmarked { LeavesUnmarked }
{}
