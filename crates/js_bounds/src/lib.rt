//! What is counted in the tree of a text is within bounds. Definitions and proofs.
#![tactic(auto)]

ghost use Rattle.js_bounds.specs.Bounds.{CountsFew, NamesAreTexts, StandLow, HasNoMarks};

/// The tree of a text has at most eight counts for each byte; the names of its functions are texts; what is counted in it stands at lines
/// and columns below 2^32; and it has no marks.
pub fn bounds()
    ensures few { CountsFew }
    ensures names { NamesAreTexts }
    ensures low { StandLow }
    ensures unmarked { HasNoMarks }
{}
