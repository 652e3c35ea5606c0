//! How high the syntax tree of a file is.
#![tactic(auto)]

mod heights;

pub use heights::height;
