//! What stands before the statements of a counted file: the file's function, its name, and the data that it holds.
#![tactic(auto)]

mod digits;
mod laws;
mod name;
mod objects;
mod pieces;
mod spelled;
mod things;
mod values;
mod whole;
mod zero;

pub use laws::{naming, spelling};
pub use name::cov_name;
pub use whole::preamble;
