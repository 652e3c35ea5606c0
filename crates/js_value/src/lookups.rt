ghost use Rattle.js_value.specs.Lookups.{LooksUp, LooksOut, FindsAgain, AssignShows, ReadsIndex, TellsIndices, GetsElement, GetsNone, PutsNew, PutsOld, GrowsByMore};

/// What lookups and writes come to in a heap of which a part is known.
pub fn lookups_hold()
    ensures up { LooksUp }
    ensures out { LooksOut }
    ensures again { FindsAgain }
    ensures assigned { AssignShows }
    ensures index { ReadsIndex }
    ensures indices { TellsIndices }
    ensures element { GetsElement }
    ensures none { GetsNone }
    ensures new { PutsNew }
    ensures old { PutsOld }
    ensures grown { GrowsByMore }
{}
