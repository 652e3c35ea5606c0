ghost use Rattle.std.specs.Prelude.{◌≡◌};
ghost use Rattle.items.specs.declared.data.Data.{Data};
ghost use Rattle.js_value.specs.State.{Heap};
ghost use Rattle.js_coverage.specs.Coverage.{IsData};
ghost use Rattle.js_coverage.specs.CoverageRows.{Values, Objects, Cycles};

/// The data that a program leaves by the definition, worked out: it computes.
pub fn worked_coverage()
    ensures values { Values }
    ensures objects { Objects }
    ensures cycles { Cycles }
{}

/// A heap has one tree of data at most.
pub fn one_tree()
    ensures { (h : Heap) (tree other : Data) → IsData h tree → IsData h other → tree ≡ other }
{}
