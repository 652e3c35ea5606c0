//! What a function that is held under its name means, over the whole meaning.
#![tactic(auto)]

ghost use Rattle.js_held.specs.Held.{HoldMeans, NeedsHold};
ghost use Rattle.js_held.specs.Shifted.{HoldShifts};
ghost use Rattle.js_held.specs.Unreferenced.{HolderUnreferenced, OpeningIsClosed};

use js_meaning::shapes;

/// A counted function that is held under its name means the counter, and then the function with that
/// name, which is made after one more object. What needs to be held is such a function. Nothing refers
/// to the one more object afterwards; beside a run that makes the function by that name alone all is
/// alike, with references that are shifted by it.
pub fn holding()
    ensures means { HoldMeans }
    ensures needs { NeedsHold }
    ensures shifts { HoldShifts }
    ensures unreferenced { HolderUnreferenced }
    ensures opening { OpeningIsClosed }
{
    shapes();
}
