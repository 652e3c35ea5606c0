use items::{Items, Text};
use js_tree::Pos;

/// What a file writes: a name, or the string that it asks for a file with.
#[derive(Drop)]
pub enum Mention {
    /// A name that is bound or referred to, and where its node starts.
    Variable(Pos, Text),
    /// A label, and where it stands.
    Label(Pos, Text),
    /// The name of a member or of a property.
    Member(Text),
    /// The units of the string that a call of `require` begins with.
    Required(Items<u16>),
}
