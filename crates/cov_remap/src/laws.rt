ghost use Rattle.cov_remap.specs.Laws.{AreRemapped, AreWholeWay, AreOrderFree, AreEarly, AreKept, AreMerged, AreRemappedOnce};

use cov_merge::{each_key, each_path};

/// Does nothing. Its contract says what the counts of many runs come to, merged and remapped in any order.
pub fn whole_way()
    ensures remapped { AreRemapped }
    ensures runs { AreWholeWay }
    ensures order { AreOrderFree }
    ensures early { AreEarly }
    ensures kept { AreKept }
    ensures merged { AreMerged }
    ensures once { AreRemappedOnce }
{
    each_key();
    each_path();
}
