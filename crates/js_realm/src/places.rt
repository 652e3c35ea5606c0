ghost use Rattle.std.specs.Prelude.{◌≡◌};
ghost use Rattle.js_value.specs.Realm as realm;

use js_heap::Env;
use js_value::{ErrorKind, Object, Place};

/// The built-in object of this place.
pub fn object_at(place: Place) -> Object
    ensures { result.index ≡ realm.number_of place }
{
    Object::at(place as u64)
}

/// The object that the errors of this kind inherit from (ECMA-262, 20.5.3 and 20.5.6.3).
pub fn error_prototype(kind: ErrorKind) -> Object
    ensures { result.index ≡ realm.number_of (realm.error_prototype kind) }
{
    object_at(match kind {
        ErrorKind::Error => Place::ErrorPrototype,
        ErrorKind::TypeError => Place::TypeErrorPrototype,
        ErrorKind::RangeError => Place::RangeErrorPrototype,
        ErrorKind::ReferenceError => Place::ReferenceErrorPrototype,
        ErrorKind::SyntaxError => Place::SyntaxErrorPrototype,
    })
}

/// The environment of the names that every file has (9.1.1.4).
pub fn global_environment() -> Env
    ensures { result.index ≡ realm.global_environment }
{
    Env::at(0)
}
