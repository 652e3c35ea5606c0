//! The host of the small language: what the built-in functions answer, and what they do to the heap.
#![tactic(auto)]

mod arrays;
mod call;
mod complaints;
mod constructors;
mod copying;
mod function_objects;
mod functions;
mod iterations;
mod members;
mod native;
mod objects;
mod on_objects;
mod perform;
mod prelude;
mod texts;
mod values;

pub use call::{built_in, call_native};
pub use complaints::{error_of, message_of};
pub use function_objects::{Shape, make_function, make_instance};
pub use iterations::{Iteration, iterate_items, iterate_keys, take_next};
pub use js_realm::{error_prototype, global_environment, object_at, realm};
pub use js_value::{ErrorKind, ascii};
pub use members::{delete_member, get_member, get_named, is_in, is_instance, put_member, type_in};
pub use native::Native;
pub use prelude::PRELUDE;
pub use texts::utf8_of;
