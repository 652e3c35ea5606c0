ghost use Rattle.js_value.specs.Ranges as ranges;

/// Does nothing. Its contract is a law: numbers stay in range, whatever is done with them.
pub fn numbers_stay_in_range()
    ensures literals { ranges.LiteralsInRange }
    ensures conversions { ranges.ConversionsInRange }
    ensures binary { ranges.BinaryInRange }
    ensures unary { ranges.UnaryInRange }
    ensures steps { ranges.StepsInRange }
{}
