ghost use Rattle.std.specs.Prelude.{◌≡◌};
ghost use Rattle.name_hold.specs.Hoists as spec;

/// Where a declaration stands in the source.
#[derive(Clone, Copy, Debug, PartialEq, Eq)]
pub enum Place {
    /// Directly in a file.
    File,
    /// Directly in the body of a function.
    Body,
    /// Directly in a block, also one of `try`, `catch` or `finally`.
    Block,
    /// Elsewhere: in a clause of a `switch`, in the head of a `for`, after a label, as the body of a
    /// loop or as the arm of an `if`.
    Other,
}

/// Whether the counter of an initializer may stand before the declaration: where this stands directly
/// in a file, a body or a block, and the declarator is its first. It takes no memory.
pub fn can_hoist(place: Place, first: bool) -> bool
    ensures { result ≡ spec.can_hoist place first }
{
    match place {
        Place::File | Place::Body | Place::Block => first,
        Place::Other => false,
    }
}
