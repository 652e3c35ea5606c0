ghost use Rattle.source_map.specs.Kept.{KeepsMaps};
ghost use Rattle.source_map.specs.Laws.{IsComposed, IsReadBack, IsFit, IsComposedFit};

/// One map after another traces as one after another, and what is written is read back.
pub fn reading()
    ensures composed { IsComposed }
    ensures read_back { IsReadBack }
    ensures fit { IsFit }
    ensures composed_fit { IsComposedFit }
{}

/// The text of a map is one that the coverage of a file keeps, and is read as the map's data.
pub fn keeping()
    ensures { KeepsMaps }
{}
