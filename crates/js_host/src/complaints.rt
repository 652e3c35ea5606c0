ghost use Rattle.std.specs.Prelude.{◌≡◌, IfOk};
ghost use Rattle.js_value.specs.Host as spec;

use items::Memory;
use js_value::{Complaint, ErrorKind, Str, ascii};
use std::alloc::Global;

/// The kind of the error that a complaint is thrown as.
pub fn error_of(complaint: Complaint) -> ErrorKind
    ensures { result ≡ spec.error_of complaint }
{
    match complaint {
        Complaint::NotDefined | Complaint::NotInitialised => ErrorKind::ReferenceError,
        Complaint::BadLength | Complaint::BadCount | Complaint::BadRadix => ErrorKind::RangeError,
        Complaint::NoSuchFile => ErrorKind::Error,
        _ => ErrorKind::TypeError,
    }
}

/// The message of the error that a complaint is thrown as. Only want of memory is an error.
pub fn message_of(alloc: Global, complaint: Complaint) -> Result<Str, Memory>
    ensures { IfOk result (λ text. text ≡ spec.message_of complaint) }
{
    match complaint {
        Complaint::NotDefined => ascii(alloc, b"not defined"),
        Complaint::NotInitialised => ascii(alloc, b"not initialised"),
        Complaint::NotAssignable => ascii(alloc, b"constant"),
        Complaint::NotAConstructor => ascii(alloc, b"not a constructor"),
        Complaint::NotAFunction => ascii(alloc, b"not a function"),
        Complaint::NoProperties => ascii(alloc, b"no properties"),
        Complaint::NotAnObject => ascii(alloc, b"not an object"),
        Complaint::NotAnArray => ascii(alloc, b"not an array"),
        Complaint::NotAText => ascii(alloc, b"not a text"),
        Complaint::NotIterable => ascii(alloc, b"not iterable"),
        Complaint::ReadOnly => ascii(alloc, b"read only"),
        Complaint::BadLength => ascii(alloc, b"bad length"),
        Complaint::BadCount => ascii(alloc, b"bad count"),
        Complaint::BadRadix => ascii(alloc, b"bad radix"),
        Complaint::WrongReceiver => ascii(alloc, b""),
        Complaint::NoSuchFile => ascii(alloc, b"no such file"),
    }
}
