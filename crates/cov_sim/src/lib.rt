//! The texts that the source files of a program become whose coverage is counted.
#![tactic(auto)]

mod counting;
mod fault;
mod instrumented;
mod instrumenting;
mod laws;

pub use counting::counting_tree;
pub use cov_sources::{Source, Sources, Why, accept};
pub use fault::InstrumentFault;
pub use instrumented::{Instrumented, MappedText};
pub use instrumenting::{instrument_all, look_at_input, text_for};
pub use laws::{reading, simulating};
