ghost use Rattle.cov_remap.specs.Rows.{SourcePaths, Remapped};

/// Does nothing. Its contract is a table of paths and coverage files with what they come to.
pub fn worked_paths()
    ensures paths { SourcePaths }
    ensures remapped { Remapped }
{}
