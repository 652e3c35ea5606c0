//! The hash that a coverage carries of its file's bytes.
#![tactic(auto)]

mod hash;

pub use hash::hash_of;
