//! Coverage maps, remapped by the source maps of their files.
#![tactic(auto)]

mod fault;
mod laws;
mod path;
mod pieces;
mod remapped;
mod rows;
mod sent;

pub use fault::RemapFault;
pub use laws::whole_way;
pub use remapped::remap;
pub use rows::worked_paths;
