//! Coverage as V8 writes it, and what it tells of a source.
#![tactic(auto)]

mod coverage;
mod fault;
mod laws;
mod lines;
mod path;
mod ranges;
mod read;
mod rows;
mod steps;
mod table;
mod v8;
mod walk;

pub use coverage::to_coverage;
pub use fault::V8Fault;
pub use laws::counting;
pub use path::source_of;
pub use read::read_v8;
pub use rows::worked_rows;
pub use v8::{V8, V8Function, V8Range, V8Script};
