use crate::error_kind::ErrorKind;

/// A built-in function that looks at no object: at primitive values alone.
#[derive(Clone, Copy, Debug, PartialEq, Eq)]
pub enum OnData {
    /// `print`.
    Print,
    /// `String.fromCharCode` (ECMA-262, 22.1.2.1).
    FromCharCode,
    /// `String.prototype.charAt` (22.1.3.2).
    CharAt,
    /// `String.prototype.charCodeAt` (22.1.3.3).
    CharCodeAt,
    /// `String.prototype.endsWith` (22.1.3.7).
    EndsWith,
    /// `String.prototype.includes` (22.1.3.8).
    TextIncludes,
    /// `String.prototype.indexOf` (22.1.3.9).
    TextIndexOf,
    /// `String.prototype.repeat` (22.1.3.18).
    Repeat,
    /// `String.prototype.slice` (22.1.3.22).
    TextSlice,
    /// `String.prototype.split` (22.1.3.23).
    Split,
    /// `String.prototype.startsWith` (22.1.3.24).
    StartsWith,
    /// `String.prototype.substring` (22.1.3.25).
    Substring,
    /// `String.prototype.toString` (22.1.3.29).
    TextToString,
    /// `String.prototype.trim` (22.1.3.32).
    Trim,
    /// `Number.prototype.toString` (21.1.3.6).
    NumberToString,
    /// `Boolean.prototype.toString` (20.3.3.2).
    BooleanToString,
    /// `Math.abs` (21.3.2.1).
    Abs,
    /// `Math.floor` (21.3.2.16).
    Floor,
    /// `Math.max` (21.3.2.24).
    Max,
    /// `Math.min` (21.3.2.25).
    Min,
}

/// A built-in function that looks at objects.
#[derive(Clone, Copy, Debug, PartialEq, Eq)]
pub enum OnObjects {
    /// `Object.assign` (20.1.2.1).
    Assign,
    /// `Object.create` (20.1.2.2).
    Create,
    /// `Object.freeze` (20.1.2.6).
    Freeze,
    /// `Object.getPrototypeOf` (20.1.2.12).
    GetPrototypeOf,
    /// `Object.isFrozen` (20.1.2.17).
    IsFrozen,
    /// `Object.keys` (20.1.2.19).
    Keys,
    /// `Object.prototype.hasOwnProperty` (20.1.3.2).
    HasOwnProperty,
    /// `Function.prototype.apply` (20.2.3.1).
    Apply,
    /// `Function.prototype.call` (20.2.3.3).
    Call,
    /// `Function.prototype.toString` (20.2.3.5).
    FunctionToString,
    /// `Array.isArray` (23.1.2.2).
    IsArray,
    /// `Array.prototype.concat` (23.1.3.2).
    Concat,
    /// `Array.prototype.includes` (23.1.3.16).
    Includes,
    /// `Array.prototype.indexOf` (23.1.3.17).
    IndexOf,
    /// `Array.prototype.join` (23.1.3.18).
    Join,
    /// `Array.prototype.pop` (23.1.3.22).
    Pop,
    /// `Array.prototype.push` (23.1.3.23).
    Push,
    /// `Array.prototype.reverse` (23.1.3.26).
    Reverse,
    /// `Array.prototype.shift` (23.1.3.27).
    Shift,
    /// `Array.prototype.slice` (23.1.3.28).
    Slice,
    /// `Array.prototype.unshift` (23.1.3.37).
    Unshift,
}

/// A built-in function that has a `prototype`.
#[derive(Clone, Copy, Debug, PartialEq, Eq)]
pub enum Constructor {
    /// `Object` (20.1.1).
    Object,
    /// `Array` (23.1.1).
    Array,
    /// `String` (22.1.1).
    String,
    /// `Number` (21.1.1).
    Number,
    /// `Boolean` (20.3.1).
    Boolean,
    /// `Error` and the errors of its kind (20.5.1 and 20.5.6).
    Error(ErrorKind),
}

/// A built-in function.
#[derive(Clone, Copy, Debug, PartialEq, Eq)]
pub enum BuiltIn {
    /// One that looks at primitive values alone.
    OnData(OnData),
    /// One that looks at objects.
    OnObjects(OnObjects),
    /// One that has a `prototype`.
    Constructor(Constructor),
    /// `require`: each start of a file makes one of its own.
    Require,
}

/// A built-in object that others refer to, in the order in which they are made.
#[derive(Clone, Copy, Debug, PartialEq, Eq)]
pub enum Place {
    /// The object that objects inherit from (20.1.3).
    ObjectPrototype,
    /// The global object (19).
    Global,
    /// The object that functions inherit from (20.2.3).
    FunctionPrototype,
    /// The object that errors inherit from (20.5.3).
    ErrorPrototype,
    /// The object that type errors inherit from (20.5.6.3).
    TypeErrorPrototype,
    /// The object that range errors inherit from.
    RangeErrorPrototype,
    /// The object that reference errors inherit from.
    ReferenceErrorPrototype,
    /// The object that syntax errors inherit from.
    SyntaxErrorPrototype,
    /// The object that arrays inherit from (23.1.3).
    ArrayPrototype,
    /// The object that texts inherit from (22.1.3).
    StringPrototype,
    /// The object that numbers inherit from (21.1.3).
    NumberPrototype,
    /// The object that truth values inherit from (20.3.3).
    BooleanPrototype,
    /// The object that regular expressions inherit from (22.2.6): it is empty.
    RegExpPrototype,
    /// `Math` (21.3).
    Math,
    /// The function `Object`: from here on functions, as the rows of the table begin.
    Object,
    /// The function `Array`.
    Array,
    /// The function `String`.
    String,
    /// The function `Number`.
    Number,
    /// The function `Boolean`.
    Boolean,
    /// The function `Error`.
    Error,
    /// The function `TypeError`.
    TypeError,
    /// The function `RangeError`.
    RangeError,
    /// The function `ReferenceError`.
    ReferenceError,
    /// The function `SyntaxError`.
    SyntaxError,
}

/// How many built-in objects aren't functions.
pub const PLACES: usize = 14;

/// How many built-in functions there are when a program begins.
pub const FUNCTIONS: usize = 51;

/// The built-in objects that aren't functions, in the order in which they are made, each with the object
/// that it inherits from.
pub const PROTOTYPES: [(Place, Option<Place>); PLACES] = [
    (Place::ObjectPrototype, None),
    (Place::Global, Some(Place::ObjectPrototype)),
    (Place::FunctionPrototype, Some(Place::ObjectPrototype)),
    (Place::ErrorPrototype, Some(Place::ObjectPrototype)),
    (Place::TypeErrorPrototype, Some(Place::ErrorPrototype)),
    (Place::RangeErrorPrototype, Some(Place::ErrorPrototype)),
    (Place::ReferenceErrorPrototype, Some(Place::ErrorPrototype)),
    (Place::SyntaxErrorPrototype, Some(Place::ErrorPrototype)),
    (Place::ArrayPrototype, Some(Place::ObjectPrototype)),
    (Place::StringPrototype, Some(Place::ObjectPrototype)),
    (Place::NumberPrototype, Some(Place::ObjectPrototype)),
    (Place::BooleanPrototype, Some(Place::ObjectPrototype)),
    (Place::RegExpPrototype, Some(Place::ObjectPrototype)),
    (Place::Math, Some(Place::ObjectPrototype)),
];

/// The built-in functions, by their numbers: what each is, the object whose property it is, its name and
/// its length. One that is no object's is a name that every file has. `require` isn't among them: its number is
/// the next one.
pub const BUILT_INS: [(BuiltIn, Option<Place>, &str, u8); FUNCTIONS] = [
    (BuiltIn::Constructor(Constructor::Object), None, "Object", 1),
    (BuiltIn::Constructor(Constructor::Array), None, "Array", 1),
    (BuiltIn::Constructor(Constructor::String), None, "String", 1),
    (BuiltIn::Constructor(Constructor::Number), None, "Number", 1),
    (
        BuiltIn::Constructor(Constructor::Boolean),
        None,
        "Boolean",
        1,
    ),
    (
        BuiltIn::Constructor(Constructor::Error(ErrorKind::Error)),
        None,
        "Error",
        1,
    ),
    (
        BuiltIn::Constructor(Constructor::Error(ErrorKind::TypeError)),
        None,
        "TypeError",
        1,
    ),
    (
        BuiltIn::Constructor(Constructor::Error(ErrorKind::RangeError)),
        None,
        "RangeError",
        1,
    ),
    (
        BuiltIn::Constructor(Constructor::Error(ErrorKind::ReferenceError)),
        None,
        "ReferenceError",
        1,
    ),
    (
        BuiltIn::Constructor(Constructor::Error(ErrorKind::SyntaxError)),
        None,
        "SyntaxError",
        1,
    ),
    (BuiltIn::OnData(OnData::Print), None, "print", 0),
    (
        BuiltIn::OnObjects(OnObjects::Assign),
        Some(Place::Object),
        "assign",
        2,
    ),
    (
        BuiltIn::OnObjects(OnObjects::Create),
        Some(Place::Object),
        "create",
        2,
    ),
    (
        BuiltIn::OnObjects(OnObjects::Freeze),
        Some(Place::Object),
        "freeze",
        1,
    ),
    (
        BuiltIn::OnObjects(OnObjects::GetPrototypeOf),
        Some(Place::Object),
        "getPrototypeOf",
        1,
    ),
    (
        BuiltIn::OnObjects(OnObjects::IsFrozen),
        Some(Place::Object),
        "isFrozen",
        1,
    ),
    (
        BuiltIn::OnObjects(OnObjects::Keys),
        Some(Place::Object),
        "keys",
        1,
    ),
    (
        BuiltIn::OnObjects(OnObjects::HasOwnProperty),
        Some(Place::ObjectPrototype),
        "hasOwnProperty",
        1,
    ),
    (
        BuiltIn::OnObjects(OnObjects::Apply),
        Some(Place::FunctionPrototype),
        "apply",
        2,
    ),
    (
        BuiltIn::OnObjects(OnObjects::Call),
        Some(Place::FunctionPrototype),
        "call",
        1,
    ),
    (
        BuiltIn::OnObjects(OnObjects::FunctionToString),
        Some(Place::FunctionPrototype),
        "toString",
        0,
    ),
    (
        BuiltIn::OnData(OnData::BooleanToString),
        Some(Place::BooleanPrototype),
        "toString",
        0,
    ),
    (
        BuiltIn::OnData(OnData::NumberToString),
        Some(Place::NumberPrototype),
        "toString",
        1,
    ),
    (BuiltIn::OnData(OnData::Abs), Some(Place::Math), "abs", 1),
    (
        BuiltIn::OnData(OnData::Floor),
        Some(Place::Math),
        "floor",
        1,
    ),
    (BuiltIn::OnData(OnData::Max), Some(Place::Math), "max", 2),
    (BuiltIn::OnData(OnData::Min), Some(Place::Math), "min", 2),
    (
        BuiltIn::OnData(OnData::FromCharCode),
        Some(Place::String),
        "fromCharCode",
        1,
    ),
    (
        BuiltIn::OnData(OnData::CharAt),
        Some(Place::StringPrototype),
        "charAt",
        1,
    ),
    (
        BuiltIn::OnData(OnData::CharCodeAt),
        Some(Place::StringPrototype),
        "charCodeAt",
        1,
    ),
    (
        BuiltIn::OnData(OnData::EndsWith),
        Some(Place::StringPrototype),
        "endsWith",
        1,
    ),
    (
        BuiltIn::OnData(OnData::TextIncludes),
        Some(Place::StringPrototype),
        "includes",
        1,
    ),
    (
        BuiltIn::OnData(OnData::TextIndexOf),
        Some(Place::StringPrototype),
        "indexOf",
        1,
    ),
    (
        BuiltIn::OnData(OnData::Repeat),
        Some(Place::StringPrototype),
        "repeat",
        1,
    ),
    (
        BuiltIn::OnData(OnData::TextSlice),
        Some(Place::StringPrototype),
        "slice",
        2,
    ),
    (
        BuiltIn::OnData(OnData::Split),
        Some(Place::StringPrototype),
        "split",
        2,
    ),
    (
        BuiltIn::OnData(OnData::StartsWith),
        Some(Place::StringPrototype),
        "startsWith",
        1,
    ),
    (
        BuiltIn::OnData(OnData::Substring),
        Some(Place::StringPrototype),
        "substring",
        2,
    ),
    (
        BuiltIn::OnData(OnData::TextToString),
        Some(Place::StringPrototype),
        "toString",
        0,
    ),
    (
        BuiltIn::OnData(OnData::Trim),
        Some(Place::StringPrototype),
        "trim",
        0,
    ),
    (
        BuiltIn::OnObjects(OnObjects::IsArray),
        Some(Place::Array),
        "isArray",
        1,
    ),
    (
        BuiltIn::OnObjects(OnObjects::Concat),
        Some(Place::ArrayPrototype),
        "concat",
        1,
    ),
    (
        BuiltIn::OnObjects(OnObjects::Includes),
        Some(Place::ArrayPrototype),
        "includes",
        1,
    ),
    (
        BuiltIn::OnObjects(OnObjects::IndexOf),
        Some(Place::ArrayPrototype),
        "indexOf",
        1,
    ),
    (
        BuiltIn::OnObjects(OnObjects::Join),
        Some(Place::ArrayPrototype),
        "join",
        1,
    ),
    (
        BuiltIn::OnObjects(OnObjects::Pop),
        Some(Place::ArrayPrototype),
        "pop",
        0,
    ),
    (
        BuiltIn::OnObjects(OnObjects::Push),
        Some(Place::ArrayPrototype),
        "push",
        1,
    ),
    (
        BuiltIn::OnObjects(OnObjects::Reverse),
        Some(Place::ArrayPrototype),
        "reverse",
        0,
    ),
    (
        BuiltIn::OnObjects(OnObjects::Shift),
        Some(Place::ArrayPrototype),
        "shift",
        0,
    ),
    (
        BuiltIn::OnObjects(OnObjects::Slice),
        Some(Place::ArrayPrototype),
        "slice",
        2,
    ),
    (
        BuiltIn::OnObjects(OnObjects::Unshift),
        Some(Place::ArrayPrototype),
        "unshift",
        1,
    ),
];

/// The name and the length of `require`.
pub const REQUIRE: (&str, u8) = ("require", 1);

/// The names that every file has for objects that aren't functions.
pub const NAMED_OBJECTS: [(&str, Place); 2] = [
    ("globalThis", Place::Global),
    ("Math", Place::Math),
];

/// The functions that have a property `prototype`, each with the object that it is, whose property
/// `constructor` the function is.
pub const CONSTRUCTORS: [(Place, Place); 10] = [
    (Place::Object, Place::ObjectPrototype),
    (Place::Array, Place::ArrayPrototype),
    (Place::String, Place::StringPrototype),
    (Place::Number, Place::NumberPrototype),
    (Place::Boolean, Place::BooleanPrototype),
    (Place::Error, Place::ErrorPrototype),
    (Place::TypeError, Place::TypeErrorPrototype),
    (Place::RangeError, Place::RangeErrorPrototype),
    (Place::ReferenceError, Place::ReferenceErrorPrototype),
    (Place::SyntaxError, Place::SyntaxErrorPrototype),
];

/// The objects that errors inherit from, with their property `name`.
pub const ERRORS: [(Place, &str); 5] = [
    (Place::ErrorPrototype, "Error"),
    (Place::TypeErrorPrototype, "TypeError"),
    (Place::RangeErrorPrototype, "RangeError"),
    (Place::ReferenceErrorPrototype, "ReferenceError"),
    (Place::SyntaxErrorPrototype, "SyntaxError"),
];
