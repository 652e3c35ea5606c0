use items::Items;
use js_tree::Name;
use js_value::{Kind, Value};

/// How a computation of a program completes (ECMA-262, 6.2.4, a Completion Record).
#[derive(Drop)]
pub enum Completion {
    /// With a value; that of a statement is undefined.
    Normal(Value),
    /// By `break`, with a label or without.
    Break(Option<Name>),
    /// By `continue`, with a label or without.
    Continue(Option<Name>),
    /// By `return`.
    Return(Value),
    /// By an exception.
    Throw(Value),
}

/// What comes of a computation.
#[derive(Drop)]
pub enum Outcome {
    /// It completes.
    Completes(Completion),
    /// It is refused, which no `catch` and no `finally` sees.
    Refuses(Kind),
    /// It asks for a step where none is left.
    Stops,
}

/// A thrown value as the bytes that are shown of it.
pub type Shown = Items<u8>;

/// How a run ends.
#[derive(Drop)]
pub enum End {
    /// The program is done.
    Done,
    /// An exception was not caught.
    Threw(Shown),
    /// The program left the profile: its value can't be told here.
    Range(Kind),
    /// A step is asked for and none is left; with more steps it goes on.
    Going,
}
