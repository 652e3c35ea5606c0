use crate::{Items, Text};

/// A tree of data: what is left of a JavaScript value when it is taken out of its heap. It has no
/// functions, no undefined values and no lone surrogates, as JSON has none.
#[cycle(data)]
#[derive(Debug, Drop)]
pub enum Data {
    /// `null`.
    Null,
    /// A truth value.
    Boolean(bool),
    /// A whole number.
    Number(i64),
    /// A text.
    String(Text),
    /// An array, by its items.
    Array(Items<Data>),
    /// An object, by its properties in their order.
    Object(Items<DataProperty>),
}

/// A property of an object: its key, and the data under it.
#[cycle(data)]
#[derive(Debug, Drop)]
pub struct DataProperty {
    /// The key.
    pub key: Text,
    /// What stands under the key.
    pub value: Data,
}
