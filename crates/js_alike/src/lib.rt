//! Trees that are the same but for places, comments and parentheses mean the same. Definitions and proofs.
#![tactic(auto)]

ghost use Rattle.js_alike.specs.Laws.{RunsAsBare, LinksAsBare, MeansAlike, RunsPlainlyAlike};

/// The runs of programs whose trees are the same but for places, comments and pairs of parentheses are equal.
pub fn alike()
    ensures runs { RunsAsBare }
    ensures links { LinksAsBare }
    ensures means { MeansAlike }
    ensures plainly { RunsPlainlyAlike }
{}
