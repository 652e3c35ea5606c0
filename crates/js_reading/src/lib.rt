//! The grammar of the language as a table of slots: definitions and proofs, and no code but the names of productions and choices.
//! Each law on the definitions is a clause of a small function's contract.
#![tactic(auto)]

ghost use Rattle.js_reading.specs.Laws.{ReadsEachSentence, ReadsNothingElse, HasOneTree, StopsAtDead, CountsTrees, BeginsLevels, AsksForEach, StopsAtLeftOut, StopsTheRun, FindsThis, TextHasOneTree, CountsLinesFromOne, TokensStandApart, FindsFew, FindsAll, FindsWhatEnds, FindsWhatIsRefused, FindsOnlyBegun, FindsOnlyBegunAhead, FindsOnlyBegunFurther, LeavesOut, LeavesOutAhead, LeavesOutFurther, SupportsWhatEnds, SupportsWhatIsRefused, PlacesStandApart};

mod choice;
mod class;
mod form;
mod unsupported;

pub use choice::Choice;
pub use class::Class;
pub use form::Form;
pub use unsupported::Unsupported;

/// The machine reads each sentence as its tree and nothing else, a list of tokens has one tree at most, and where the machine
/// stops no sentence begins so. What a place counts as levels is in each tree that it leads to, and the tokens so far begin them.
/// Each token that is read is one for the goal with which it is asked for. No sentence
/// goes on with what begins a form that is left out, and where a few tokens tell it the machine stops at them; a `this`
/// that is no name is found where an expression begins. Turn by turn a form is found at its last token, and no other is: of a
/// text it is left out, and where none is found there is none. A text has one tree at most.
pub fn language()
    ensures reads { ReadsEachSentence }
    ensures nothing_else { ReadsNothingElse }
    ensures one { HasOneTree }
    ensures stops { StopsAtDead }
    ensures counts { CountsTrees }
    ensures begins { BeginsLevels }
    ensures asks { AsksForEach }
    ensures left_out { StopsAtLeftOut }
    ensures told { StopsTheRun }
    ensures finds_this { FindsThis }
    ensures stands_apart { TokensStandApart }
    ensures finds_few { FindsFew }
    ensures finds_all { FindsAll }
    ensures finds_ended { FindsWhatEnds }
    ensures finds_refused { FindsWhatIsRefused }
    ensures finds_begun { FindsOnlyBegun }
    ensures finds_ahead { FindsOnlyBegunAhead }
    ensures finds_further { FindsOnlyBegunFurther }
    ensures leaves_out { LeavesOut }
    ensures leaves_out_ahead { LeavesOutAhead }
    ensures leaves_out_further { LeavesOutFurther }
    ensures supports_ended { SupportsWhatEnds }
    ensures supports_refused { SupportsWhatIsRefused }
    ensures places_apart { PlacesStandApart }
    ensures text { TextHasOneTree }
    ensures lines { CountsLinesFromOne }
{}
