//! How an anonymous function that is counted keeps its name: its counter stands before the declaration, or it is held by an object that names it.
#![tactic(auto)]

mod holder;
mod needs;
mod place;

pub use holder::{after_counter, hold};
pub use needs::needs_hold;
pub use place::{Place, can_hoist};
