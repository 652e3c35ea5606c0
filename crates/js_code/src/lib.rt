//! A program's code as an arena of nodes, made once from its trees: each node tells its parts by their places, and each place
//! reads as a plain tree.
#![tactic(auto)]

mod code;
mod compile;
mod compiling;
mod declare;
mod hoisting;
mod identifier;
mod literal;
mod names;
mod node;
mod once;
mod places;
mod scopes;

pub use code::{Code, FileCode};
pub use identifier::SharedIdentifier;
pub use literal::{Numeral, StringValue, Word};
pub use node::{ListKind, Node};
pub use scopes::{BlockScope, BodyScope, Hoisted, NewName};
