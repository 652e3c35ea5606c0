//! The coverage that a program leaves in its heap.
#![tactic(auto)]

mod coverage;
mod coverage_rows;

pub use coverage::{DataFault, coverage_of};
pub use coverage_rows::{one_tree, worked_coverage};
