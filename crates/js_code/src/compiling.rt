ghost use Rattle.std.specs.Prelude.{◌≡◌, ◌<◌, ◌^◌, ◌-◌, ◌++◌, ◌∷◌, [], true, false, length, slice_get, IfOk, MatchResult};
ghost use Rattle.js_tree.specs.Plain.{BindingIdentifier};
ghost use Rattle.js_tree.specs.Tree.{plain_pattern};
ghost use Rattle.js_code.specs.declared.node.Node.TheVariants.{Missing};
ghost use Rattle.js_code.specs.Node.{PartsBelow, ScopeHolds};
ghost use Rattle.js_code.specs.Code.{node_at, reader};
ghost use Rattle.js_code.specs.private.Compiled.{AllBelow, Chained, IfWhole, Kept, Noted, Pushed, Reserved, Stands, built};

use crate::identifier::SharedIdentifier;
use crate::node::{ListKind, Node};
use crate::places::Places;
use items::{Items, Memory, Text};
use js_names::SharedName;
use js_tree::{Identifier, Name, Pattern, PatternNode};
use std::alloc::{AllocError, Global};
use std::marker::Model;

/// A program's code while it is made. Contracts see its nodes, the place of each function's code by the
/// function's number, and whether memory was wanting: then nothing more is put, and it doesn't finish.
pub struct Compiling {
    nodes: Items<Node>,
    functions: Places,
    // what stands past the end
    end: Node,
    // memory was wanting: nothing more is put, and it doesn't finish
    wanting: bool,
}

impl Model for Compiling {
    ghost use Rattle.std.specs.Prelude.{◌≡◌};
    ghost use Rattle.js_code.specs.declared.node.Node.TheVariants.{Missing};
    ghost use Rattle.js_code.specs.Code.{IsOrdered, ScopesHold};
    ghost use Rattle.js_code.specs.private.Push.{Compiling};

    ghost Value = { Compiling };

    ghost view = { λ code. record { nodes = code.nodes; functions = code.functions; wanting = code.wanting } };

    // each node stands after its parts, and tells its scope
    ghost invariant = { λ code. IsOrdered code.nodes × ScopesHold code.nodes × (code.end ≡ Missing) };
}

impl Drop for Compiling {
    fn drop(self) {
        let Compiling {
            nodes,
            functions,
            end,
            wanting: _,
        } = self;
        drop(nodes);
        drop(functions);
        drop(end);
    }
}

impl Compiling {
    /// The node at a place: past the end it is a missing part.
    pub fn node(&self, place: usize) -> &Node
        ensures is { result.now ≡ node_at self.now.nodes place }
        ensures stands { Stands self.now.nodes place result.now }
        ensures few { length self.now.nodes < 2 ^ 64 - 1 }
    {
        at(self.nodes.as_slice(), place, &self.end)
    }

    /// The place that was given for a part: an error exactly where memory was wanting.
    pub fn finish(&self, place: usize) -> Result<usize, Memory>
        ensures { MatchResult result (λ given. (given ≡ place) × (self.now.wanting ≡ false)) (λ failed. self.now.wanting ≡ true) }
    {
        if self.wanting {
            return Err(AllocError);
        }
        Ok(place)
    }

    /// The place of the code of the function with a number.
    pub fn function(&self, number: u64) -> Option<usize>
        ensures { result ≡ slice_get self.now.functions number }
    {
        self.functions.get(number as usize)
    }
}

/// What stands at a place: past the end it is the missing part.
fn at<'a>(nodes: &'a [Node], place: usize, missing: &'a Node) -> &'a Node
    requires { missing.now ≡ Missing }
    ensures { result.now ≡ node_at nodes.now place }
{
    match nodes.get(place) {
        Some(node) => node,
        None => missing,
    }
}

/// Code that has nothing yet.
pub fn begin(alloc: Global) -> Compiling
    ensures nodes { result.nodes ≡ [] }
    ensures functions { result.functions ≡ [] }
    ensures whole { result.wanting ≡ false }
{
    Compiling {
        nodes: Items::new(alloc),
        functions: Places::new(alloc),
        end: Node::Missing,
        wanting: false,
    }
}

/// Notes that memory is wanting, and gives a place of no part.
pub fn lack(code: &mut Compiling) -> usize
    ensures { code.new.wanting ≡ true }
{
    code.wanting = true;
    0
}

/// Puts a node at the end, and gives its place, unless memory was wanting.
pub fn push(code: &mut Compiling, node: Node) -> usize
    requires below { IfWhole code.old (PartsBelow (length code.old.nodes) node) }
    requires scope { IfWhole code.old (ScopeHolds (reader code.old.nodes) node) }
    ensures { Kept code.old code.new (Pushed code.old code.new result (built node)) }
{
    if code.wanting {
        drop(node);
        return 0;
    }
    let place = code.nodes.len();
    match code.nodes.push(node) {
        Ok(()) => place,
        Err(AllocError) => lack(code),
    }
}

/// Puts a place at the end of some, unless memory is wanting.
pub fn hold(code: &mut Compiling, places: &mut Items<usize>, place: usize)
    ensures { Kept code.old code.new ((code.new ≡ code.old) × (places.new ≡ places.old ++ place ∷ [])) }
{
    if places.push(place).is_err() {
        code.wanting = true;
    }
}

/// A copy of a text.
pub fn copied(alloc: Global, text: &Text) -> Result<Text, Memory>
    ensures { IfOk result (λ copy. copy ≡ text.now) }
{
    Text::from_str(alloc, text.as_str())
}

/// A name, as a run holds it.
pub fn shared(alloc: Global, name: &Name) -> Result<SharedName, Memory>
    ensures { IfOk result (λ shared. shared ≡ name.now) }
{
    SharedName::new(alloc, name.as_str())
}

/// Puts the list of the parts at these places at the end, and gives its place.
pub fn chain(code: &mut Compiling, kind: ListKind, places: &[usize]) -> usize
    requires below { IfWhole code.old (AllBelow (length code.old.nodes) places.now) }
    ensures { Kept code.old code.new (Chained code.old code.new kind places.now result) }
{
    let mut rest = push(code, Node::End { kind });
    for index in (0..places.len()).rev() {
        let first = places[index];
        rest = push(code, Node::More { kind, first, rest });
    }
    rest
}

/// The number of the next function, whose code comes later.
pub fn reserve(code: &mut Compiling) -> u64
    ensures { Kept code.old code.new (Reserved code.old code.new result) }
{
    let number = code.functions.len();
    if code.functions.push(0).is_err() {
        code.wanting = true;
    }
    number as u64
}

/// The code of the function with this number stands at this place.
pub fn note(code: &mut Compiling, number: u64, place: usize)
    ensures { Kept code.old code.new (Noted code.old code.new number place) }
{
    code.functions.put(number as usize, place);
}

/// An identifier that may be missing, as a run holds it.
pub fn shared_if(
    alloc: Global,
    identifier: &Option<Identifier>,
) -> Result<Option<SharedIdentifier>, Memory>
    ensures { IfOk result (λ shared. shared ≡ identifier.now) }
{
    match identifier {
        None => Ok(None),
        Some(identifier) => Ok(Some(SharedIdentifier::new(alloc, identifier)?)),
    }
}

/// The name that a pattern binds.
#[tactic(auto, using(crate::proofs::Rules::pattern_rules))]
pub fn bound_name(alloc: Global, pattern: &Pattern) -> Result<SharedName, Memory>
    ensures { IfOk result (λ name. plain_pattern pattern.now ≡ BindingIdentifier pattern.now.loc name) }
{
    let PatternNode::BindingIdentifier(name) = &pattern.node;
    shared(alloc, name)
}
