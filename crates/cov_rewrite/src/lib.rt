//! An instrumented file: its tree with its counters and its preamble. The tree that is given is consumed.
#![tactic(auto)]

mod arms;
mod blocks;
mod counters;
mod declarations;
mod expressions;
mod functions;
mod laws;
mod numbering;
mod site;
mod statements;
mod whole;

pub use laws::makes;
pub use whole::rewrite;
