//! The words of the command line, and what they ask for.
#![tactic(auto)]

mod arguments;
mod command;
mod forms;
mod laws;
mod rows;
mod sources;
mod words;

pub use command::{Command, CoverageTask, Reporter, SourceTask};
pub use laws::plain_words;
pub use rows::worked_words;
pub use words::command_of;
