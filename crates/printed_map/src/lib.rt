//! The source map of a printed tree, made of the marks that its printing leaves.
#![tactic(auto)]

mod laws;
mod map;

pub use laws::{tracing, worked_map};
pub use map::map_of;
