ghost use Rattle.cov_rewrite.specs.Laws.{MakesRewritten};

/// What is made of a file is the linked file, rewritten.
pub fn makes()
    ensures { MakesRewritten }
{}
