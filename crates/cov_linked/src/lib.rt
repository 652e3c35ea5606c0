//! What linking a rewritten file reads of it. Definitions and proofs.
#![tactic(auto)]

ghost use Rattle.cov_linked.specs.Linked.{LinksAnyNumbers, LinksRewritten, LinksPreamble, LinksCounters};

/// A rewritten file is linked to the same, whatever numbers its functions have, and whichever file of a program its
/// source is; what is put into it has two functions, before the source's own.
pub fn linked()
    ensures numbers { LinksAnyNumbers }
    ensures rewritten { LinksRewritten }
    ensures preamble { LinksPreamble }
    ensures counters { LinksCounters }
{}
