ghost use Rattle.std.specs.Prelude.{◌≡◌, ◌<◌, ◌≤◌, ◌+◌, ◌-◌, ◌^◌, IfOk};
ghost use Rattle.js_walk.specs.Constructs as spec;

use items::{Items, Memory, Text};
use js_tree::Construct;
use std::alloc::Global;

// The constructs of a file, each function with a name: its own, if it has one, or else one by its
// number among the functions.
#[tactic(auto, using(crate::proofs::AllNamed::numbered_push, crate::proofs::AllNamed::all_named_push))]
pub(crate) fn all_named(alloc: Global, list: Items<Construct>) -> Result<Vec<Construct>, Memory>
    ensures { IfOk result (λ named. named.items ≡ spec.all_named 0 list) }
{
    let mut named = Vec::new(alloc);
    let mut number = 0;
    let constructs = list.into_vec();
    for construct in constructs {
        let next = number_after(number, &construct);
        named.push(with_name(alloc, number, construct)?)?;
        number = next;
    }
    Ok(named)
}

// How many functions come before what follows a construct.
fn number_after(number: usize, construct: &Construct) -> usize
    requires { number < 2 ^ 64 - 1 }
    ensures after { result ≡ spec.number_after number construct.now }
    ensures most { result ≤ number + 1 }
{
    match construct {
        Construct::Statement { loc: _ } => number,
        Construct::Function {
            name: _,
            decl: _,
            loc: _,
        } => number + 1,
        Construct::Branch {
            kind: _,
            loc: _,
            paths: _,
        } => number,
    }
}

// A construct with a name, if it is a function.
fn with_name(alloc: Global, number: usize, construct: Construct) -> Result<Construct, Memory>
    ensures { IfOk result (λ named. named ≡ spec.named number construct) }
{
    match construct {
        Construct::Statement { loc } => Ok(Construct::Statement { loc }),
        Construct::Function { name, decl, loc } => {
            let name = name_or_anonymous(alloc, number, name)?;
            Ok(Construct::Function { name, decl, loc })
        }
        Construct::Branch { kind, loc, paths } => Ok(Construct::Branch { kind, loc, paths }),
    }
}

// The name of a function: its own, if it has one.
fn name_or_anonymous(alloc: Global, number: usize, name: Text) -> Result<Text, Memory>
    ensures { IfOk result (λ text. text ≡ spec.name_or_anonymous number name) }
{
    if name.as_str().is_empty() {
        anonymous(alloc, number)
    } else {
        Ok(name)
    }
}

// The name of a function that is written without one.
fn anonymous(alloc: Global, number: usize) -> Result<Text, Memory>
    ensures { IfOk result (λ text. text ≡ spec.anonymous number) }
{
    Ok(Text::from_string(format!(in alloc; "(anonymous_{number})")?))
}
