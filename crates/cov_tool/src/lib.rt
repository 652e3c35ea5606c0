//! The top call: all that the program does.
#![tactic(auto)]

mod program;

pub use cov_commands::{Status, say_out_of_memory};
pub use program::cov;
