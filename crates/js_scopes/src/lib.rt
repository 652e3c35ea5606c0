//! The early rules on the scopes, the labels and the names of a file, the names that it writes and the files that it asks for.
#![tactic(auto)]

mod binding;
mod checks;
mod declarations;
mod fault;
mod faults;
mod labels;
mod laws;
mod mention;
mod mentions;
mod names;
mod place;
mod required;
mod reserved;
mod rules;
mod scopes;
mod seen;
mod targets;

pub use fault::{ScopeFault, ScopeFaultKind};
pub use laws::order;
pub use rules::{Checked, check, check_again};
