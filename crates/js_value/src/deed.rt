ghost use Rattle.std.specs.Prelude.{◌≡◌};

use crate::error_kind::ErrorKind;
use crate::value::{Kind, Object, Primitive, Str, Value};
use items::{Items, Memory};

/// What the program or a built-in function did wrong: each is thrown as an error of one kind, with one
/// message.
#[derive(Clone, Copy, Debug, PartialEq, Eq)]
pub enum Complaint {
    /// A name that isn't declared.
    NotDefined,
    /// A name that isn't initialised yet.
    NotInitialised,
    /// An assignment to a name that is constant.
    NotAssignable,
    /// A function that may not be constructed.
    NotAConstructor,
    /// A call of what is no function.
    NotAFunction,
    /// What is undefined or null has no properties.
    NoProperties,
    /// An object is needed.
    NotAnObject,
    /// An array is needed.
    NotAnArray,
    /// A text is needed.
    NotAText,
    /// A value whose items can't be gone through.
    NotIterable,
    /// A property that may not be written or deleted.
    ReadOnly,
    /// A length of an array that is negative.
    BadLength,
    /// A count of repetitions that is negative.
    BadCount,
    /// A radix below 2 or above 36.
    BadRadix,
    /// A `this` of a type that the function isn't for.
    WrongReceiver,
    /// A file that the program doesn't have.
    NoSuchFile,
}

/// Why a built-in function does nothing.
#[derive(Clone, Copy, Debug, PartialEq, Eq)]
pub enum Halt {
    /// An error is thrown.
    Throw(Complaint),
    /// What this language leaves out is refused.
    Refuse(Kind),
    /// Want of memory.
    Memory,
}

impl From<Kind> for Halt {
    ghost use Rattle.js_value.specs.declared.deed.Halt.{Halt};

    ghost from_gives = { λ kind halt. halt ≡ Halt.Refuse kind };

    fn from(kind: Kind) -> Halt {
        Halt::Refuse(kind)
    }
}

impl From<Memory> for Halt {
    ghost use Rattle.js_value.specs.declared.deed.Halt.{Halt};

    ghost from_gives = { λ _ halt. halt ≡ Halt.Memory };

    fn from(_fault: Memory) -> Halt {
        Halt::Memory
    }
}

/// What a built-in function that looks at primitive values gives.
#[derive(Debug, Drop)]
pub enum Datum {
    /// A primitive value.
    One(Primitive),
    /// An array of texts.
    Texts(Items<Str>),
    /// A line for the output, whose value is undefined.
    Line(Str),
}

/// What a built-in function does, once it has looked at all that it needs: it changes the heap in no
/// other way.
#[derive(Debug, Drop)]
pub enum Deed {
    /// Gives a value.
    Give(Value),
    /// Writes a text and LF to the output, and gives undefined.
    Line(Str),
    /// Makes an array of these elements.
    MakeArray(Items<Value>),
    /// Makes an object without properties that inherits from this one, or from none.
    MakeObject(Option<Object>),
    /// Makes an error of this kind, with this message.
    MakeError(ErrorKind, Option<Str>),
    /// Puts elements after those of an array, and gives its new length.
    Append(Object, Items<Value>),
    /// Leaves the first so many elements of an array, and gives a value.
    Cut(Object, u64, Value),
    /// Puts elements in the place of those of an array, and gives a value.
    Replace(Object, Items<Value>, Value),
    /// Freezes an object, and gives it.
    Freeze(Object),
    /// Writes to an object what the others have of their own and enumerable, one after another, and gives it; or complains
    /// where one of these writes can't be.
    Copy(Object, Items<Value>),
    /// A call takes the place of this one: its function, its `this` and its arguments.
    Enter(Value, Value, Items<Value>),
    /// The file of this text is required.
    Require(Str),
}
