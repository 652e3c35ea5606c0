ghost use Rattle.js_two_runs.specs.TwoRuns.{AllBuiltInsRelated};

/// In two runs whose heaps are related the built-in functions do related deeds.
pub fn built_ins_related()
    ensures { AllBuiltInsRelated }
{}
