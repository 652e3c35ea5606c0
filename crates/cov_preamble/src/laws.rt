ghost use Rattle.cov_preamble.specs.Laws.{IsApart, CanRefer, IsNew, SpellsFiles};

/// The name of a file's function is none of the names that are given, it can be referred to, and where they are a file's it may stand in the file and no variable there has it.
pub fn naming()
    ensures apart { IsApart }
    ensures refers { CanRefer }
    ensures new { IsNew }
{}

/// The data that a preamble holds is spelt as an expression of JavaScript, and not deep.
pub fn spelling()
    ensures { SpellsFiles }
{}
