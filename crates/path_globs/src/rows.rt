ghost use Rattle.path_globs.specs.Rows.{NormalForms, SourcePaths, Resolved, Beside, Matches};

/// Does nothing. Its contract is a table of paths with what they come to.
pub fn worked_paths()
    ensures normal_forms { NormalForms }
    ensures source_paths { SourcePaths }
    ensures resolved { Resolved }
    ensures beside { Beside }
    ensures matches { Matches }
{}
