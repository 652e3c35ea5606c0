//! Programs of accepted sources suit the counters of coverage. Definitions and proofs.
#![tactic(auto)]

ghost use Rattle.cov_suits.specs.Suited.{AcceptedSuitsCounters, PreludeReadable};

use cov_preamble::naming;
use js_suits::suits;

/// A program of accepted sources, with the host's prelude, suits the counters that coverage has: nothing else is asked of it.
pub fn suited()
    ensures prelude { PreludeReadable }
    ensures programs { AcceptedSuitsCounters }
{
    suits();
    naming();
}
