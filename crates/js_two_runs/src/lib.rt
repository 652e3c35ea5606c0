//! What two runs do alike whose heaps are alike, where a built-in function is called in both: laws, each the contract of a small
//! function, and no code that runs.
#![tactic(auto)]

mod two_calls;
mod two_heaps;
mod two_operations;
mod two_runs;

pub use two_calls::{calls_are_alike, calls_keep_environments};
pub use two_heaps::{
    alike_heaps_are_related, alike_heaps_hold, opening_is_alike, unpaired_objects_are_free,
};
pub use two_operations::operations_are_alike;
pub use two_runs::built_ins_related;
