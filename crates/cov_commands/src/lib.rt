//! What the program does for each command: the work, what is printed and put, and the lines that are said.
#![tactic(auto)]

mod answer;
mod below;
mod complaints;
mod coverage_command;
mod demo;
mod demo_file;
mod demo_sums;
mod exec;
mod fault;
mod hand_on;
mod help;
mod help_command;
mod instrument_command;
mod laws;
mod line;
mod maps;
mod perform;
mod run;
mod said;
mod source_command;
mod status;
mod v8_command;
mod written;

pub use complaints::{complain, say_out_of_memory};
pub use coverage_command::on_coverage;
pub use help_command::on_help;
pub use instrument_command::on_instrument;
pub use laws::by_meaning;
pub use line::Complaint;
pub use source_command::on_source;
pub use status::Status;
pub use v8_command::on_v8;
