//! The values of the language (ECMA-262, 6.1) and its operators on them; and, as definitions, the
//! store of a running program, what can be done with it, and what the host holds and answers.
#![tactic(auto)]

mod arithmetic;
mod bits;
mod built_in;
mod conversions;
mod deed;
mod digits;
mod edge_rows;
mod equality;
mod error_kind;
mod examples;
mod host_rows;
mod key;
mod literal;
mod lookups;
mod numbers;
mod operators;
mod order;
mod ranges;
mod realm_rows;
mod store_rows;
mod text_number;
mod unary_operators;
mod value;

pub use built_in::{
    BUILT_INS, BuiltIn, CONSTRUCTORS, Constructor, ERRORS, FUNCTIONS, NAMED_OBJECTS, OnData,
    OnObjects, PLACES, PROTOTYPES, Place, REQUIRE,
};
pub use conversions::{text_of_primitive, to_boolean, to_number, to_text};
pub use deed::{Complaint, Datum, Deed, Halt};
pub use edge_rows::worked_edges;
pub use equality::strictly_equal;
pub use error_kind::ErrorKind;
pub use examples::examples_hold;
pub use host_rows::worked_host;
pub use key::{Key, index_of};
pub use literal::number_of;
pub use lookups::lookups_hold;
pub use numbers::{ascii, show_number};
pub use operators::binary;
pub use order::compare;
pub use ranges::numbers_stay_in_range;
pub use realm_rows::worked_realm;
pub use store_rows::worked_store;
pub use text_number::trim;
pub use unary_operators::{step, type_of, unary};
pub use value::{Kind, Object, OpFault, Primitive, Str, Value};
