//! The names of a program as its run holds them.
#![tactic(auto)]

mod name;

pub use name::SharedName;
