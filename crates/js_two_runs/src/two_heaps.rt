ghost use Rattle.js_two_runs.specs.TwoHeaps.{AlikeHeapsAreRelated, AlikeHeapsHold, OneMoreStaysAlike, OpeningIsAlike, UnpairedStaysAlike};

/// What the built-in functions see of two heaps that are alike is related.
pub fn alike_heaps_are_related()
    ensures { AlikeHeapsAreRelated }
{}

/// Two heaps that are alike hold the built-in objects and all that related references are to.
pub fn alike_heaps_hold()
    ensures { AlikeHeapsHold }
{}

/// The heap that stands when a program begins is alike to itself.
pub fn opening_is_alike()
    ensures { OpeningIsAlike }
{}

/// Heaps stay alike whatever is made on the right alone, and written there to an object that
/// stands for none.
pub fn unpaired_objects_are_free()
    ensures made { OneMoreStaysAlike }
    ensures written { UnpairedStaysAlike }
{}
