//! Coverage maps, merged: what stands under one key in several maps is summed.
#![tactic(auto)]

mod branch;
mod by_key;
mod counted;
mod entries;
mod fault;
mod file;
mod function;
mod key;
mod laws;
mod maps;
mod onto;
mod order;
mod statement;
mod sums;
mod table;
mod tally;

pub use fault::MergeFault;
pub use key::{Counter, Key};
pub use laws::{any_order, each_key, each_path};
pub use maps::{merge, merge_all, merge_files};
pub use onto::merge_onto;
