//! The text of tokens that are written one after the other, and that its tokens are those: definitions and proofs, and no code.
#![tactic(auto)]

ghost use Rattle.js_spelling.specs.Laws.{IsText, ReadsTokensAgain, SentencesStand, HasTokens};

/// The text of tokens is UTF-8, and its tokens are those, where each may stand beside the next. The tokens of a sentence may; and
/// each token of a text is one by its spelling alone.
pub fn texts()
    ensures text { IsText }
    ensures again { ReadsTokensAgain }
    ensures stand { SentencesStand }
    ensures tokens { HasTokens }
{}
