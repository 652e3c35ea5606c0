//! The printer: the text of a tree, and the marks that say where its tokens come from.
#![tactic(auto)]

mod printed;
mod walk;

pub use js_layout::Mark;
pub use js_sheet::PrintFault;
pub use printed::{Printed, print, print_to};
