//! What coverage counts in a file, and the coverage of a file that hasn't run.
#![tactic(auto)]

mod collect;
mod counts;
mod functions;
mod inherited;
mod names;
mod paths;
mod zeroed;

pub use collect::constructs;
pub use js_tree::{BranchKind, Construct};
pub use zeroed::zero;
