//! The program in which each counted file stands rewritten, once it is read again. Definitions and proofs.
#![tactic(auto)]

ghost use Rattle.cov_again.specs.Laws.{LinksReplaced, RunsReplaced};

use cov_counted::{accepted, entries, literals};
use cov_expected::told;
use cov_preamble::naming;
use js_meaning::{marks, without_counting};

/// Linked, the program in which each counted file stands rewritten is the linked program with its counters. Read again and run without
/// counting, it ends as the sources do, prints what they print, and its heap holds their coverage.
pub fn again()
    ensures linked { LinksReplaced }
    ensures runs { RunsReplaced }
{
    marks();
    without_counting();
    naming();
    told();
    literals();
    accepted();
    entries();
}
