//! Source files, and their acceptance: what a file's bytes are read to, or why they are no source.
#![tactic(auto)]

mod accepting;
mod source;
mod why;

pub use accepting::accept;
pub use source::{Source, Sources};
pub use why::Why;
