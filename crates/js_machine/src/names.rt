// The names that nodes have.

ghost use Rattle.std.specs.Prelude.{◌≡◌, [], codes, IfOk};
ghost use Rattle.std.specs.Str.{bytes_eq};
ghost use Rattle.js_value.specs.Functions.{name_units};
ghost use Rattle.js_code.specs.Code.{node_at};
ghost use Rattle.js_meaning.specs.Scopes.{stands_in as stands_among};
ghost use Rattle.js_machine.specs.private.Config.{name_of, own_name as own, labels_in, title_in};

use crate::parts::Title;
use items::Memory;
use js_code::{Code, Node, SharedIdentifier, Word};
use js_names::SharedName;
use js_tree::Name;
use js_value::Str;
use std::alloc::Global;

/// Names that are not in the code.
pub struct Words {
    this: This,
    nameless: Nameless,
}

// The name of `this`.
struct This {
    name: SharedName,
    ghost is: { name ≡ codes "this" },
}

// The name of what has none.
struct Nameless {
    name: SharedName,
    ghost is: { name ≡ [] },
}

impl Drop for Words {
    fn drop(self) {
        let Words {
            this: This { name },
            nameless: Nameless { name: nameless },
        } = self;
        drop(name);
        drop(nameless);
    }
}

impl Words {
    /// These names, or want of memory.
    pub fn new(alloc: Global) -> Result<Words, Memory> {
        let name = SharedName::new(alloc, "this")?;
        let nameless = SharedName::new(alloc, "")?;
        Ok(Words {
            this: This { name },
            nameless: Nameless { name: nameless },
        })
    }

    /// The name of `this`.
    pub fn this(&self) -> &SharedName
        ensures { result.now ≡ codes "this" }
    {
        &self.this.name
    }

    /// The empty name.
    pub fn nameless(&self) -> &SharedName
        ensures { result.now ≡ [] }
    {
        &self.nameless.name
    }
}

/// The name of the node at a place: the empty one where it has none.
pub fn name_at<'a>(code: &'a Code, words: &'a Words, place: usize) -> &'a SharedName
    ensures { result.now ≡ name_of (node_at code.now.nodes place) }
{
    match code.node(place) {
        Node::IdentifierReference { name, .. } => name,
        Node::This { .. } => &words.this.name,
        Node::FunctionExpression { name, .. } => own_name(words, name),
        Node::NamedMember { name, .. } => name.name(),
        Node::Shorthand { name, .. } => name.name(),
        Node::NameKey { name } => name.name(),
        Node::Param { name, .. } => name,
        Node::Labelled { label, .. } => label.name(),
        Node::FunctionDeclaration { name, .. } => name.name(),
        Node::Declarator { name, .. } => name,
        Node::TargetDeclaration { name, .. } => name,
        Node::CatchName { name, .. } => name,
        _ => &words.nameless.name,
    }
}

// The name that a function may have.
fn own_name<'a>(words: &'a Words, name: &'a Option<SharedIdentifier>) -> &'a SharedName
    ensures { result.now ≡ own name.now }
{
    match name {
        None => &words.nameless.name,
        Some(own) => own.name(),
    }
}

/// The 16-bit units of that name, or want of memory.
pub fn units_at(alloc: Global, code: &Code, words: &Words, place: usize) -> Result<Str, Memory>
    ensures { IfOk result (λ units. units ≡ name_units (name_of (node_at code.now.nodes place))) }
{
    match code.node(place) {
        Node::NamedMember { name, .. } => name.units().copy(),
        Node::Shorthand { name, .. } => name.units().copy(),
        Node::NameKey { name } => name.units().copy(),
        _ => units_of(alloc, name_at(code, words, place)),
    }
}

/// The 16-bit units of what has no name, or want of memory.
pub fn no_units(alloc: Global, words: &Words) -> Result<Str, Memory>
    ensures { IfOk result (λ units. units ≡ name_units []) }
{
    units_of(alloc, &words.nameless.name)
}

// The 16-bit units of a name.
fn units_of(alloc: Global, name: &SharedName) -> Result<Str, Memory>
    ensures { IfOk result (λ units. units ≡ name_units name.now) }
{
    let word = Word::new(alloc, name.as_str())?;
    word.units().copy()
}

/// A name or a key as a text, or want of memory.
pub fn text_of(alloc: Global, code: &Code, words: &Words, title: Title) -> Result<Str, Memory>
    ensures { IfOk result (λ units. units ≡ title_in code.now.nodes title) }
{
    match title {
        Title::Empty => Str::from_vec(Vec::new(alloc)),
        Title::Name(name) => units_at(alloc, code, words, name),
        Title::Text(units) => Ok(units),
    }
}

/// Whether a name is one of some labels.
pub fn stands_in(code: &Code, words: &Words, labels: &[usize], name: &Name) -> bool
    ensures { result ≡ stands_among name.now (labels_in code.now.nodes labels.now) }
{
    for label in labels {
        if is_name(code, words, *label, name) {
            return true;
        }
    }
    false
}

/// Whether a name is that of a node.
pub fn is_name(code: &Code, words: &Words, place: usize, name: &Name) -> bool
    ensures { result ≡ bytes_eq name.now (name_of (node_at code.now.nodes place)) }
{
    name.as_str() == name_at(code, words, place).as_str()
}
