// What scopes begin with, told once.

ghost use Rattle.std.specs.Prelude.{◌≡◌};
ghost use Rattle.js_value.specs.Realm.{undefined};

use crate::literal::Word;
use items::Items;
use js_names::SharedName;
use js_value::{Primitive, Value};
use std::marker::Model;

/// A name that a scope begins with. Contracts see it as the binding (ECMA-262, 9.1.1.1) that it is made as.
#[derive(Drop)]
pub struct NewName {
    name: SharedName,
    initialized: bool,
    constant: bool,
}

impl Model for NewName {
    ghost use Rattle.js_value.specs.State.{Binding};
    ghost use Rattle.js_code.specs.Binding.{first_value};

    ghost Value = { Binding };

    ghost view = { λ n. record { name = n.name; value = first_value n.initialized; constant = n.constant } };
}

impl NewName {
    ghost use Rattle.js_meaning.specs.Scopes.{variable_of, uninitialized};

    /// A name whose value is undefined at first.
    pub fn variable(name: SharedName) -> NewName
        ensures { result ≡ variable_of undefined name }
    {
        NewName {
            name,
            initialized: true,
            constant: false,
        }
    }

    /// A name without a value at first.
    pub fn uninitialized(name: SharedName, constant: bool) -> NewName
        ensures { result ≡ uninitialized constant name }
    {
        NewName {
            name,
            initialized: false,
            constant,
        }
    }

    /// The name.
    pub fn name(&self) -> &SharedName
        ensures { result.now ≡ self.now.name }
    {
        &self.name
    }

    /// Its first value: where there is none, it isn't initialized yet.
    pub fn value(&self) -> Option<Value>
        ensures { result ≡ self.now.value }
    {
        if self.initialized {
            Some(Value::Primitive(Primitive::Undefined))
        } else {
            None
        }
    }

    /// Whether it may not be assigned to.
    pub fn is_constant(&self) -> bool
        ensures { result ≡ self.now.constant }
    {
        self.constant
    }
}

/// A function that is declared in a list of statements.
#[derive(Drop)]
pub struct Hoisted {
    name: Word,
    number: u64,
    length: usize,
    constructs: bool,
}

impl Model for Hoisted {
    ghost use Rattle.js_meaning.specs.Scopes.{Hoisted};

    ghost Value = { Hoisted };

    ghost view = { λ f. record { name = f.name; shape = record { number = f.number; length = f.length; constructs = f.constructs } } };
}

impl Hoisted {
    ghost use Rattle.std.specs.Prelude.{true};

    /// The function with this name and number, which expects so many arguments.
    pub fn new(name: Word, number: u64, length: usize) -> Hoisted
        ensures { result ≡ record { name = name; shape = record { number = number; length = length; constructs = true } } }
    {
        Hoisted {
            name,
            number,
            length,
            constructs: true,
        }
    }

    /// Its name.
    pub fn name(&self) -> &Word
        ensures { result.now ≡ self.now.name }
    {
        &self.name
    }

    /// Its number in the program.
    pub fn number(&self) -> u64
        ensures { result ≡ self.now.shape.number }
    {
        self.number
    }

    /// How many arguments it expects.
    pub fn length(&self) -> usize
        ensures { result ≡ self.now.shape.length }
    {
        self.length
    }

    /// Whether `new` may call it.
    pub fn constructs(&self) -> bool
        ensures { result ≡ self.now.shape.constructs }
    {
        self.constructs
    }
}

/// What a block begins with (14.2.3): the names of its environment, and the functions whose objects some of them take.
#[derive(Drop)]
pub struct BlockScope {
    /// The names.
    pub names: Items<NewName>,
    /// The functions, in the order of the text.
    pub functions: Items<Hoisted>,
}

/// What the body of a function begins with (10.2.11).
#[derive(Drop)]
pub struct BodyScope {
    /// The names of the parameters.
    pub params: Items<SharedName>,
    /// Whether the names of the body stand in an environment of their own: a parameter has a default.
    pub apart: bool,
    /// The names that are variables from the start on, each once: where they stand beside the parameters, without those.
    pub variables: Items<SharedName>,
    /// The names of `let` and `const`.
    pub lexical: Items<NewName>,
    /// The functions, in the order of the text.
    pub functions: Items<Hoisted>,
}
