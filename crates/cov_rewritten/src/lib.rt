//! What a counted file becomes: the tree with its counters and its preamble, and what is proved of it. Definitions and proofs.
#![tactic(auto)]

ghost use Rattle.cov_rewritten.specs.Laws.{KeepsPrintable, KeepsLow, KeepsFunctions, FirstFunctions, SameBreaksAlike, SpellsTexts, SpellsValues, NumbersAreKeys, StandsLow, RewritesWell};
ghost use Rattle.cov_rewritten.specs.Whole.{KeepsRules};

/// What a rewritten file keeps: it breaks no early rule, can be printed, is at most eight times as high, and has the functions of the source.
pub fn rewritings()
    ensures rules { KeepsRules }
    ensures printable { KeepsPrintable }
    ensures low { KeepsLow }
    ensures functions { KeepsFunctions }
    ensures first { FirstFunctions }
    ensures alike { SameBreaksAlike }
    ensures texts { SpellsTexts }
    ensures values { SpellsValues }
    ensures keys { NumbersAreKeys }
    ensures stands_low { StandsLow }
    ensures well { RewritesWell }
{}
