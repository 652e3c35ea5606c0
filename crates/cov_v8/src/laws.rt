ghost use Rattle.cov_v8.specs.Laws.{IsZeroOutside, IsShortest};

/// A unit ran as often as the shortest range that holds it, of equally long ones the last, and never
/// where none does.
pub fn counting()
    ensures zero { IsZeroOutside }
    ensures shortest { IsShortest }
{}
