//! Paths: their normal form, those of sources, what a file asks for, what stands beside it, and patterns of them.
#![tactic(auto)]

mod beside;
mod normal_form;
mod rows;
mod source;
mod specifier;
mod wildcards;

pub use beside::path_beside;
pub use normal_form::normal;
pub use rows::worked_paths;
pub use source::source_path;
pub use specifier::resolve;
pub use wildcards::matches;
