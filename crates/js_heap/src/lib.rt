//! The heap of a running program: its objects and environments, and the calls that read and
//! change them.
#![tactic(auto)]

mod bindings;
mod delete;
mod elements;
mod environment;
mod heap;
mod keys;
mod mask;
mod object;
mod properties;
mod texts;
mod write;

pub use delete::Delete;
pub use environment::{Assign, Binding, Cell, Env};
pub use heap::Heap;
pub use object::{Flags, ObjectKind};
pub use texts::delete_of_text;
pub use write::Set;
