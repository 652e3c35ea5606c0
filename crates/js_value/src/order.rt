ghost use Rattle.std.specs.Prelude.{◌≡◌, IfOk, IfErr};
ghost use Rattle.js_value.specs.Order as spec;
ghost use Rattle.js_value.specs.Order.{Stands, NoOrder};

use crate::conversions::to_number;
use crate::value::{Kind, Primitive, Str, Value};
use std::cmp::Ordering;

/// How one text stands to another in the order of texts (ECMA-262, 7.2.13, IsLessThan): by the first
/// units that differ, and else the shorter one first. It takes no memory.
pub fn compare(left: &Str, right: &Str) -> Ordering
    ensures { result ≡ spec.compare_units left.now right.now }
{
    left.as_slice().cmp(right.as_slice())
}

/// How one value stands to another, two texts as texts and others as numbers, or the kind of the refusal.
pub(crate) fn compare_values(left: &Value, right: &Value) -> Result<Ordering, Kind>
    ensures ok { IfOk result (λ order. spec.compare_values left.now right.now ≡ Stands order) }
    ensures refused { IfErr result (λ kind. spec.compare_values left.now right.now ≡ NoOrder kind) }
{
    match (left, right) {
        (Value::Primitive(Primitive::Text(left)), Value::Primitive(Primitive::Text(right))) => {
            Ok(compare(left, right))
        }
        _ => {
            let left = to_number(left)?;
            let right = to_number(right)?;
            Ok(left.cmp(&right))
        }
    }
}
