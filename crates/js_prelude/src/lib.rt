//! The host's prelude: the methods of arrays that are written in the language itself, as a tree.
#![tactic(auto)]

mod expressions;
mod methods;
mod parts;
mod statements;
mod tree;

pub use tree::prelude;
