//! How a tree is printed: its tokens, its parentheses, its text and its marks, and that the text is read again as the same tree. Definitions
//! and proofs, and no code but the type of a mark.
#![tactic(auto)]

ghost use Rattle.js_layout.specs.Laws.{IsText, ReadsAgain, ReadsSameAgain, ReadsLow, PrintsAgain, AcceptedPrints, PrintsShort};

mod mark;

pub use mark::Mark;

/// The layout of a file that can be printed is UTF-8, and is read again as that file with its parentheses, but for places and comments: a
/// tree that is the same, at most twice as high, and printed as that text. The trees of accepted texts can be printed.
pub fn layouts()
    ensures text { IsText }
    ensures again { ReadsAgain }
    ensures same { ReadsSameAgain }
    ensures low { ReadsLow }
    ensures twice { PrintsAgain }
    ensures accepted { AcceptedPrints }
    ensures short { PrintsShort }
{}
