//! What stands when a program begins: the built-in objects, each at its place, and the names that every file has.
#![tactic(auto)]

mod opening;
mod places;

pub use opening::realm;
pub use places::{error_prototype, global_environment, object_at};
