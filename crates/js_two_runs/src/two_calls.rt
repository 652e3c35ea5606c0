ghost use Rattle.js_two_runs.specs.TwoCalls.{AllCallsAnswerAlike, AllCallsKeepEnvironments, AllCallsKeepHeapsAlike, AllCallsKeepPairs};

/// Heaps that are alike stay so where a built-in function is called in both runs with related
/// values: the objects that the two calls make, if they make any, are a new pair. Both calls give
/// the same, with values that are related.
pub fn calls_are_alike()
    ensures heaps { AllCallsKeepHeapsAlike }
    ensures answers { AllCallsAnswerAlike }
    ensures pairs { AllCallsKeepPairs }
{}

/// A call of a built-in function leaves all environments as they were.
pub fn calls_keep_environments()
    ensures { AllCallsKeepEnvironments }
{}
