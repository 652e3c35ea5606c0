ghost use Rattle.std.specs.Prelude.{◌≡◌, IfOk, IfErr};
ghost use Rattle.js_value.specs.Equality as spec;
ghost use Rattle.js_value.specs.Equality.{Decides, Undecided};

use crate::conversions::number_of_primitive;
use crate::value::{Kind, Object, Primitive, Value};

/// IsStrictlyEqual (ECMA-262, 7.2.15). It takes no memory.
pub fn strictly_equal(left: &Value, right: &Value) -> bool
    ensures { result ≡ spec.strictly_equal left.now right.now }
{
    match (left, right) {
        (Value::Primitive(left), Value::Primitive(right)) => same_primitive(left, right),
        (Value::Object(left), Value::Object(right)) => same_object(*left, *right),
        _ => false,
    }
}

/// Whether two references are to the same object.
fn same_object(left: Object, right: Object) -> bool
    ensures { result ≡ spec.same_object left right }
{
    left.index() == right.index()
}

/// Whether two primitive values have the same type and the same value.
fn same_primitive(left: &Primitive, right: &Primitive) -> bool
    ensures { result ≡ spec.same_primitive left.now right.now }
{
    match (left, right) {
        (Primitive::Undefined, Primitive::Undefined) => true,
        (Primitive::Null, Primitive::Null) => true,
        (Primitive::Boolean(left), Primitive::Boolean(right)) => *left == *right,
        (Primitive::Number(left), Primitive::Number(right)) => *left == *right,
        (Primitive::Text(left), Primitive::Text(right)) => left.as_slice() == right.as_slice(),
        _ => false,
    }
}

/// IsLooselyEqual (7.2.14), or the kind of the refusal. It takes no memory.
pub(crate) fn loosely_equal(left: &Value, right: &Value) -> Result<bool, Kind>
    ensures ok { IfOk result (λ equal. spec.loosely_equal left.now right.now ≡ Decides equal) }
    ensures refused { IfErr result (λ kind. spec.loosely_equal left.now right.now ≡ Undecided kind) }
{
    match (left, right) {
        (Value::Primitive(left), Value::Primitive(right)) => loosely_equal_primitives(left, right),
        (Value::Primitive(primitive), Value::Object(_)) => loosely_equal_reference(primitive),
        (Value::Object(_), Value::Primitive(primitive)) => loosely_equal_reference(primitive),
        (Value::Object(left), Value::Object(right)) => Ok(same_object(*left, *right)),
    }
}

/// The same of a reference and a primitive value.
fn loosely_equal_reference(primitive: &Primitive) -> Result<bool, Kind>
    ensures ok { IfOk result (λ equal. spec.loosely_equal_reference primitive.now ≡ Decides equal) }
    ensures refused { IfErr result (λ kind. spec.loosely_equal_reference primitive.now ≡ Undecided kind) }
{
    if is_nullish(primitive) {
        Ok(false)
    } else {
        Err(Kind::Convert)
    }
}

/// The same of two primitive values.
fn loosely_equal_primitives(left: &Primitive, right: &Primitive) -> Result<bool, Kind>
    ensures ok { IfOk result (λ equal. spec.loosely_equal_primitives left.now right.now ≡ Decides equal) }
    ensures refused { IfErr result (λ kind. spec.loosely_equal_primitives left.now right.now ≡ Undecided kind) }
{
    let (left_nullish, right_nullish) = (is_nullish(left), is_nullish(right));
    if left_nullish || right_nullish {
        return Ok(left_nullish && right_nullish);
    }
    if same_type(left, right) {
        return Ok(same_primitive(left, right));
    }
    let left = number_of_primitive(left)?;
    let right = number_of_primitive(right)?;
    Ok(left == right)
}

/// Whether a primitive value is undefined or null.
fn is_nullish(primitive: &Primitive) -> bool
    ensures { result ≡ spec.is_nullish primitive.now }
{
    matches!(primitive, Primitive::Undefined | Primitive::Null)
}

/// Whether two primitive values are of one type.
fn same_type(left: &Primitive, right: &Primitive) -> bool
    ensures { result ≡ spec.same_type left.now right.now }
{
    matches!(
        (left, right),
        (Primitive::Undefined, Primitive::Undefined)
            | (Primitive::Null, Primitive::Null)
            | (Primitive::Boolean(_), Primitive::Boolean(_))
            | (Primitive::Number(_), Primitive::Number(_))
            | (Primitive::Text(_), Primitive::Text(_))
    )
}
