//! Coverage files, read from a store one after another, remapped and merged; those of V8 too, with the
//! sources that they name.
#![tactic(auto)]

mod fault;
mod file;
mod gather;
mod laws;
mod refusal;
mod v8;

pub use fault::InputFault;
pub use gather::gathered;
pub use laws::each_input;
pub use refusal::{Refusal, What};
pub use v8::gathered_v8;
