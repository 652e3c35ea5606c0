ghost use Rattle.js_meaning.specs.Rows.{OneLine, OneBranch, NestedLoop, SecondFile, ComputedMethod, LabelledLoop, NotHoisted, DefaultOnce, FallsThrough, Chain};

/// Which constructs small programs enter by the definition, and in which order, worked out: it computes.
pub fn worked_rows()
    ensures one_line { OneLine }
    ensures one_branch { OneBranch }
    ensures nested_loop { NestedLoop }
    ensures second_file { SecondFile }
    ensures computed_method { ComputedMethod }
    ensures labelled_loop { LabelledLoop }
    ensures not_hoisted { NotHoisted }
    ensures default_once { DefaultOnce }
    ensures falls_through { FallsThrough }
    ensures chain { Chain }
{}
