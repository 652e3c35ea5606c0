ghost use Rattle.js_two_runs.specs.TwoOperations.{AllOperationsAlike, NewObjectsAlike};

/// What is done in both of two heaps that are alike leaves them alike and answers alike: to the two
/// objects of a pair, and where an object is made in both.
pub fn operations_are_alike()
    ensures pairs { AllOperationsAlike }
    ensures made { NewObjectsAlike }
{}
