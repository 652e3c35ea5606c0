ghost use Rattle.std.specs.Prelude.{◌≡◌, Some, None, List, []};
ghost use Rattle.js_scopes.specs.Order.{first, IsFirst};
ghost use Rattle.js_scopes.specs.declared.fault.ScopeFault.{ScopeFault};

/// What the definition of the first fault says: it is one of the faults, and none of them is before
/// it; and where there is no first, there is none. It does nothing.
#[tactic(auto, using(crate::proofs::Firsts::first_is, crate::proofs::Firsts::none_first))]
pub fn order()
    ensures first { (faults : List ScopeFault) (fault : ScopeFault) → first faults ≡ Some fault → IsFirst fault faults }
    ensures none { (faults : List ScopeFault) → first faults ≡ None → faults ≡ [] }
{}
