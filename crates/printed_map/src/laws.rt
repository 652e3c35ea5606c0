ghost use Rattle.printed_map.specs.Laws.{LeadsBack, StandInOrder};
ghost use Rattle.printed_map.specs.Worked.{WorkedMap};

/// Where a mark stands in a text, its map leads to where the mark comes from; and the marks of a
/// text stand in order.
pub fn tracing()
    ensures back { LeadsBack }
    ensures order { StandInOrder }
{}

/// The mappings of a text of two statements.
pub fn worked_map()
    ensures { WorkedMap }
{}
