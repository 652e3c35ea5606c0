//! Where the marks of constructs stand in a file that can be printed. Definitions and proofs.
#![tactic(auto)]

ghost use Rattle.js_marked.specs.MarkedTree.{LinksWell};

/// Linking puts marks where they may stand.
pub fn marks()
    ensures { LinksWell }
{}
