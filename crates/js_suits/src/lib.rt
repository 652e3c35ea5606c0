//! What the counters of a program are, and that programs of accepted sources suit them. Definitions and proofs.
#![tactic(auto)]

ghost use Rattle.js_suits.specs.Laws.{ReadableSuitsByTests, AcceptedReadable, EmptyReadable, AcceptedSuitsByTests, ShiftedNumberedByTests, ConstructsCountedByTests, ProgramsSuit, FittedSuits, MarksInside, NamesFreeByTests};

use js_meaning::marks;

/// A program of accepted sources, linked with its marks, suits counters that each of its marks has, where the name of each counted file
/// is fresh in it and functions stand at their numbers.
pub fn suits()
    ensures readable { ReadableSuitsByTests }
    ensures accepted { AcceptedReadable }
    ensures empty { EmptyReadable }
    ensures whole { AcceptedSuitsByTests }
    ensures constructs { ConstructsCountedByTests }
    ensures programs { ProgramsSuit }
    ensures fitted { FittedSuits }
    ensures inside { MarksInside }
    ensures this { NamesFreeByTests }
    ensures shifted { ShiftedNumberedByTests }
{
    marks();
}
