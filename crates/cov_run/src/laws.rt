ghost use Rattle.cov_run.specs.Meant.{SessionsMean};
ghost use Rattle.cov_run.specs.Laws.{AllAreRead, BeginsWithEntry, OneCoverage, OneOutcome, OneRun, OneSession, LoadsApart, RefusesNone, RefusesNoSource};

use cov_sim::simulating;

/// What holds of every loading and every run.
pub fn programs()
    ensures one_outcome { OneOutcome }
    ensures begins { BeginsWithEntry }
    ensures all_are_read { AllAreRead }
    ensures apart { LoadsApart }
    ensures one_run { OneRun }
    ensures one_session { OneSession }
    ensures one_coverage { OneCoverage }
    ensures refuses_none { RefusesNone }
    ensures refuses { RefusesNoSource }
{}

/// A run of the instrumented texts ends, prints and counts as the sources' own meaning does.
pub fn sessions_mean()
    ensures { SessionsMean }
{
    simulating();
}
