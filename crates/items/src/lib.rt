//! Small types that contracts see as what they hold: a `Box` as its value, a `Vec` as a list, a
//! `String` as its bytes. Types that a clause compares with a definition keep their lists and
//! texts in these.
#![tactic(auto)]

mod boxed;
mod data;
mod items;
mod text;

pub use boxed::Boxed;
pub use data::{Data, DataProperty};
pub use items::Items;
pub use text::Text;

/// Want of memory: the one answer that any call which allocates may give.
pub type Memory = std::alloc::AllocError;
