//! Programs: the files that one is loaded from, runs of such programs, and runs that count what they enter.
#![tactic(auto)]

mod fault;
mod input;
mod laws;
mod loader;
mod queue;
mod reading;
mod run;
mod sessions;

pub use fault::{LoadFault, SessionFault};
pub use laws::{programs, sessions_mean};
pub use loader::load;
pub use reading::{read_mapped, read_source};
pub use run::{Ran, exec};
pub use sessions::{SessionEnd, session};
