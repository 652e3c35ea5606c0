//! Whether two files are the same but for what has no meaning.
#![tactic(auto)]

mod sameness;

pub use sameness::same;
