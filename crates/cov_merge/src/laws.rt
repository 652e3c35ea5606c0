ghost use Rattle.cov_merge.specs.Laws.{AreSummed, HaveTheirKeys, HaveEachOnce, AreOrderFree, AreGroupingFree, AreLeftToRight, SumAlone, AreByPath, AreMergedOnce};

/// What is merged has the keys of the files, each once and no others, and at each the sum of the
/// counts; also where a file is merged with nothing.
pub fn each_key()
    ensures summed { AreSummed }
    ensures keys { HaveTheirKeys }
    ensures once { HaveEachOnce }
    ensures alone { SumAlone }
{}

/// The count at a key depends neither on the order of the files nor on which are merged first. Where
/// the first ones are merged first, the entries are the same, in the same order, and so is the
/// fault.
pub fn any_order()
    ensures order { AreOrderFree }
    ensures grouping { AreGroupingFree }
    ensures left_to_right { AreLeftToRight }
{}

/// A merged map has at each path that a file has all files with that path as one, in their order,
/// and at others none. A map that is merged already is merged to itself.
pub fn each_path()
    ensures by_path { AreByPath }
    ensures merged_again { AreMergedOnce }
{}
