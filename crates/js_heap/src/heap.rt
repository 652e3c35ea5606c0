ghost use Rattle.std.specs.Prelude.{◌≡◌};
ghost use Rattle.js_value.specs.Objects.{no_object};
ghost use Rattle.js_value.specs.Environments.{no_environment};
ghost use Rattle.js_heap.specs.Object.{plain_object};
ghost use Rattle.js_heap.specs.Environment.{plain_environment};

use crate::elements::Elements;
use crate::environment::{Binding, Environment};
use crate::object::{ObjectRecord, Property};
use crate::write::Write;
use crate::{Assign, Cell, Delete, Env, Flags, ObjectKind, Set, keys, texts};
use items::{Items, Memory};
use js_names::SharedName;
use js_value::{Key, Object, Str, Value};
use std::alloc::Global;

/// The objects and environments of a running program, each numbered in the order in which they
/// were made. A reference to none of them is to an object of nothing, or an environment of nothing:
/// that is what is found there, and a change of it changes nothing.
pub struct Heap {
    alloc: Global,
    objects: Vec<ObjectRecord>,
    environments: Vec<Environment>,
    nothing: Nothing,
    nowhere: Nowhere,
}

// Types of their own, so that a change of the heap needn't prove again what they are.

/// What a reference to no object is to.
struct Nothing {
    object: ObjectRecord,
    ghost plain: { plain_object object ≡ no_object },
}

/// What a reference to no environment is to.
struct Nowhere {
    environment: Environment,
    ghost plain: { plain_environment environment ≡ no_environment },
}

impl Drop for Heap {
    // Written out, so that what owns a heap needn't prove it again.
    fn drop(self) {
        let Heap {
            alloc: _,
            objects,
            environments,
            nothing: Nothing { object },
            nowhere: Nowhere { environment },
        } = self;
        drop(objects);
        drop(environments);
        drop(object);
        drop(environment);
    }
}

impl Heap {
    ghost use Rattle.std.specs.Prelude.{◌≡◌, ◌<◌, ◌-◌, ◌^◌, ◌&&◌, true, not, [], ◌∷◌, ◌++◌, IfOk, IfSome, IfNone, OnSome, OnOk, OnErr, Some, None, map, option_map, length, nat_lt, pos, slice_get, if◌then◌else◌};
    ghost use Rattle.std.specs.Option.{option_copied};
    ghost use Rattle.js_value.specs.Numbers.{decimal_text};
    ghost use Rattle.js_value.specs.Objects.{object_at, kind_of, is_array, next_object, new_object, new_array, own, found, get, has_property, inherits, keys, define, freeze, elements_of, with_elements, append, cut, write_of, write_of_absent, set, Done, Appends, set_answer, delete, delete_answer};
    ghost use Rattle.js_value.specs.Texts.{own_of_text, keys_of_text, get_of_text, delete_of_text};
    ghost use Rattle.js_value.specs.Environments.{environment_at, place_of, next_environment, new_environment, copy_environment, declare, lookup, value_of, init, assign, assign_answer, init_name, assign_name, name_answer};
    ghost use Rattle.js_heap.specs.Object.{plain_kind, plain_set, plain_delete, property_with};
    ghost use Rattle.js_heap.specs.Environment.{plain_binding, plain_cell, plain_assign};
    ghost use Rattle.js_value.specs.Realm.{empty_heap};
    ghost use Rattle.js_heap.specs.private.Write.{plain_write, Placed, bars, seen_of};
    ghost use Rattle.js_heap.specs.private.Environment.{cell_at};
    ghost use Rattle.js_heap.specs.Heap.{heap_of};

    /// A heap of nothing, which takes no memory. What is made later is kept on the allocator.
    pub fn new(alloc: Global) -> Heap
        ensures { heap_of result ≡ empty_heap }
    {
        Heap {
            alloc,
            objects: Vec::new(alloc),
            environments: Vec::new(alloc),
            nothing: Nothing {
                object: ObjectRecord::new(alloc, ObjectKind::Plain, None),
            },
            nowhere: Nowhere {
                environment: Environment::new(alloc, None),
            },
        }
    }

    /// Makes an object that inherits from `prototype` and has no properties (ECMA-262, 10.1.12). On
    /// want of memory nothing changes.
    pub fn object(&mut self, kind: ObjectKind, prototype: Option<Object>) -> Result<Object, Memory>
        ensures ok { OnOk result (heap_of self.new
            ≡ new_object (plain_kind kind) (option_map (λ o. o.index) prototype) (heap_of self.old)) }
        ensures object { IfOk result (λ made. made.index ≡ next_object (heap_of self.old)) }
        ensures err { OnErr result (heap_of self.new ≡ heap_of self.old) }
    {
        let made = Object::at(self.objects.len() as u64);
        self.objects
            .push(ObjectRecord::new(self.alloc, kind, prototype))?;
        Ok(made)
    }

    /// Makes an array of no elements (10.4.2.2). On want of memory nothing changes.
    pub fn array(&mut self, prototype: Object) -> Result<Object, Memory>
        ensures ok { OnOk result (heap_of self.new
            ≡ new_array prototype.index [] (heap_of self.old)) }
        ensures object { IfOk result (λ made. made.index ≡ next_object (heap_of self.old)) }
        ensures err { OnErr result (heap_of self.new ≡ heap_of self.old) }
    {
        let elements = Items::new(self.alloc);
        self.array_of(prototype, elements)
    }

    /// Makes an array of these elements. On want of memory nothing changes.
    pub fn array_of(&mut self, prototype: Object, elements: Items<Value>) -> Result<Object, Memory>
        ensures ok { OnOk result (heap_of self.new
            ≡ new_array prototype.index elements (heap_of self.old)) }
        ensures object { IfOk result (λ made. made.index ≡ next_object (heap_of self.old)) }
        ensures err { OnErr result (heap_of self.new ≡ heap_of self.old) }
    {
        let made = Object::at(self.objects.len() as u64);
        let elements = Elements::new(elements);
        self.objects
            .push(ObjectRecord::array(self.alloc, prototype, elements))?;
        Ok(made)
    }

    /// The elements of an array, lent; another object has none.
    pub fn elements(&self, object: Object) -> &[Value]
        ensures { result.now ≡ elements_of (heap_of self.now) object.index }
    {
        self.record(object).elements.as_slice()
    }

    /// The element of an array at an index, lent: the property of the index's key, without the key. None where the object is
    /// no array or has no such element, or the number is no index.
    pub fn element(&self, object: Object, index: u64) -> Option<&Value>
        ensures element { option_copied result ≡ (if is_array (kind_of (heap_of self.now) object.index) && nat_lt index (2 ^ 32 - 1)
            then slice_get (elements_of (heap_of self.now) object.index) index else None) }
        ensures property { IfSome result (λ value. get (heap_of self.now) object.index (decimal_text (pos index)) ≡ Some value.now) }
    {
        self.record(object).element(index)
    }

    /// Puts more elements after those of an array. On want of memory nothing changes.
    pub fn append(&mut self, object: Object, more: Items<Value>) -> Result<(), Memory>
        ensures ok { OnOk result (heap_of self.new
            ≡ append object.index more (heap_of self.old)) }
        ensures err { OnErr result (heap_of self.new ≡ heap_of self.old) }
    {
        match self.objects.get_mut(object.index() as usize) {
            Some(record) => record.elements.append(more),
            None => Ok(()),
        }
    }

    /// Leaves the first so many elements of an array, and no others. It takes no memory.
    pub fn cut(&mut self, object: Object, size: usize)
        ensures { heap_of self.new ≡ cut object.index size (heap_of self.old) }
    {
        if let Some(record) = self.objects.get_mut(object.index() as usize) {
            record.elements.cut(size);
        }
    }

    /// Puts elements in the place of those of an array. On want of memory nothing changes.
    pub fn replace(&mut self, object: Object, elements: Items<Value>) -> Result<(), Memory>
        ensures ok { OnOk result (heap_of self.new
            ≡ with_elements object.index elements (heap_of self.old)) }
        ensures err { OnErr result (heap_of self.new ≡ heap_of self.old) }
    {
        let elements = Elements::new(elements);
        if let Some(record) = self.objects.get_mut(object.index() as usize) {
            record.elements = elements;
        }
        Ok(())
    }

    /// Defines the object's own property of this name, and its flags (10.1.6). On want of memory
    /// nothing changes. An array's elements and length are not among what it defines.
    pub fn define(
        &mut self,
        object: Object,
        name: &Str,
        value: Value,
        flags: Flags,
    ) -> Result<(), Memory>
        ensures ok { OnOk result (heap_of self.new
            ≡ define object.index (property_with name.now value flags) (heap_of self.old)) }
        ensures err { OnErr result (heap_of self.new ≡ heap_of self.old) }
    {
        let property = Property::new(name, value, flags)?;
        match self.objects.get_mut(object.index() as usize) {
            Some(record) => record.properties.define(property),
            None => Ok(()),
        }
    }

    /// Freezes the object (20.1.2.6): none of its properties may be written any more, and it gets no
    /// new ones.
    pub fn freeze(&mut self, object: Object)
        ensures { heap_of self.new ≡ freeze object.index (heap_of self.old) }
    {
        if let Some(record) = self.objects.get_mut(object.index() as usize) {
            record.frozen = true;
        }
    }

    /// Writes the object's property of this name (10.1.9, and 10.4.2.1 of an array). On want of
    /// memory nothing changes. A length is a number: what else is given is no length (`BadLength`).
    pub fn set(&mut self, object: Object, name: &Str, value: Value) -> Result<Set, Memory>
        ensures answer { IfOk result (λ answer. plain_set answer
            ≡ set_answer (heap_of self.old) object.index name.now value) }
        ensures ok { OnOk result (heap_of self.new
            ≡ set object.index name.now value (heap_of self.old)) }
        ensures err { OnErr result (heap_of self.new ≡ heap_of self.old) }
    {
        let write = self.write_of(object, name, &value);
        match self.objects.get_mut(object.index() as usize) {
            Some(record) => record.set(write, name, value),
            None => {
                drop(value);
                Ok(Set::Done)
            }
        }
    }

    /// Gives the element of an array at an index the value, where the array isn't frozen and has one: that writes the property of
    /// the index's key, without the key. Else the value is given back, and nothing changes.
    fn put_element(&mut self, object: Object, index: u64, value: Value) -> Option<Value>
        ensures answer { result ≡ (if is_array (kind_of (heap_of self.old) object.index)
            && not (object_at (heap_of self.old) object.index).frozen && nat_lt index (2 ^ 32 - 1)
            && nat_lt index (length (elements_of (heap_of self.old) object.index)) then None else Some value) }
        ensures kept { OnSome result (heap_of self.new ≡ heap_of self.old) }
        ensures done { IfNone result (set_answer (heap_of self.old) object.index (decimal_text (pos index)) value ≡ Done) }
        ensures written { IfNone result (heap_of self.new ≡ set object.index (decimal_text (pos index)) value (heap_of self.old)) }
    {
        match self.objects.get_mut(object.index() as usize) {
            Some(record) => record.put_element(index, value),
            None => Some(value),
        }
    }

    /// Writes the object's property of an index's key, without the key where that is an element of an array or one more at its end.
    /// On want of memory nothing changes.
    pub fn set_element(&mut self, object: Object, index: u64, value: Value) -> Result<Set, Memory>
        ensures answer { IfOk result (λ answer. plain_set answer
            ≡ set_answer (heap_of self.old) object.index (decimal_text (pos index)) value) }
        ensures ok { OnOk result (heap_of self.new
            ≡ set object.index (decimal_text (pos index)) value (heap_of self.old)) }
        ensures err { OnErr result (heap_of self.new ≡ heap_of self.old) }
    {
        match self.put_element(object, index, value) {
            None => Ok(Set::Done),
            Some(value) => self.set_new_element(object, index, value),
        }
    }

    /// The same, of what is no element that is there.
    fn set_new_element(&mut self, object: Object, index: u64, value: Value) -> Result<Set, Memory>
        ensures answer { IfOk result (λ answer. plain_set answer
            ≡ set_answer (heap_of self.old) object.index (decimal_text (pos index)) value) }
        ensures ok { OnOk result (heap_of self.new
            ≡ set object.index (decimal_text (pos index)) value (heap_of self.old)) }
        ensures err { OnErr result (heap_of self.new ≡ heap_of self.old) }
    {
        if self.takes_at_end(object, index) {
            self.append_element(object, value)?;
            return Ok(Set::Done);
        }
        let key = keys::show_index(self.alloc, index as usize)?;
        self.set(object, &key, value)
    }

    /// Whether a write of the property of an index's key surely puts one more element at an array's end.
    fn takes_at_end(&self, object: Object, index: u64) -> bool
        ensures { result ≡ true → (v : Value) → write_of (heap_of self.now) object.index (decimal_text (pos index)) v ≡ Appends }
    {
        self.record(object).ends_at(index) && self.inherits_none(object, index)
    }

    /// Whether what the object inherits from surely has no property of an index's key.
    fn inherits_none(&self, object: Object, index: u64) -> bool
        ensures { result ≡ true → index < 2 ^ 32 - 1 → found object.index (heap_of self.now).objects
            (object_at (heap_of self.now) object.index).prototype (decimal_text (pos index)) ≡ None }
    {
        let mut chain = self.proto(object);
        for _ in 0..object.index() {
            let Some(at) = chain else {
                return true;
            };
            let record = self.record(at);
            if !record.lacks(index) {
                return false;
            }
            chain = record.prototype;
        }
        true
    }

    /// Puts one more element after those of an array. On want of memory nothing changes.
    fn append_element(&mut self, object: Object, value: Value) -> Result<(), Memory>
        ensures ok { OnOk result (heap_of self.new ≡ append object.index (value ∷ []) (heap_of self.old)) }
        ensures err { OnErr result (heap_of self.new ≡ heap_of self.old) }
    {
        match self.objects.get_mut(object.index() as usize) {
            Some(record) => record.elements.push(value),
            None => {
                drop(value);
                Ok(())
            }
        }
    }

    /// Deletes the object's own property of this name (10.1.10). It takes no memory.
    pub fn delete(&mut self, object: Object, name: &Str) -> Delete
        ensures answer { plain_delete result
            ≡ delete_answer (heap_of self.old) object.index name.now }
        ensures after { heap_of self.new ≡ delete object.index name.now (heap_of self.old) }
    {
        match self.objects.get_mut(object.index() as usize) {
            Some(record) => record.delete(name),
            None => Delete::Done,
        }
    }

    /// The object's own keys (10.1.11), each with whether it is enumerable, or want of memory.
    pub fn keys(&self, object: Object) -> Result<Items<Key>, Memory>
        ensures { IfOk result (λ found. found ≡ keys (heap_of self.now) object.index) }
    {
        keys::keys_of(self.alloc, self.record(object))
    }

    /// The object's own property of this name (10.1.5): its value, lent, and its flags.
    pub fn own(&self, object: Object, name: &Str) -> Option<(&Value, Flags)>
        ensures { option_map (λ found. property_with name.now found.0.now found.1) result
            ≡ own (heap_of self.now) object.index name.now }
    {
        self.record(object).own(name)
    }

    /// What the object is.
    pub fn kind(&self, object: Object) -> &ObjectKind
        ensures { plain_kind result.now ≡ kind_of (heap_of self.now) object.index }
    {
        &self.record(object).kind
    }

    /// What the object inherits from (10.1.1).
    pub fn proto(&self, object: Object) -> Option<Object>
        ensures { option_map (λ o. o.index) result
            ≡ (object_at (heap_of self.now) object.index).prototype }
    {
        self.record(object).prototype
    }

    /// Whether the object is frozen.
    pub fn is_frozen(&self, object: Object) -> bool
        ensures { result ≡ (object_at (heap_of self.now) object.index).frozen }
    {
        self.record(object).frozen
    }

    /// The value of the property of this name, lent: the object's own, or else the first along its
    /// prototypes (10.1.8).
    pub fn get(&self, object: Object, name: &Str) -> Option<&Value>
        ensures { option_copied result ≡ get (heap_of self.now) object.index name.now }
    {
        if let Some((value, _)) = self.own(object, name) {
            return Some(value);
        }
        let (value, _) = self.inherited(object, name)?;
        Some(value)
    }

    /// Whether the object has a property of this name, its own or along its prototypes (7.3.12).
    pub fn has(&self, object: Object, name: &Str) -> bool
        ensures { result ≡ has_property (heap_of self.now) object.index name.now }
    {
        self.get(object, name).is_some()
    }

    /// Whether the object inherits from another (7.3.21, 6).
    pub fn inherits(&self, object: Object, other: Object) -> bool
        ensures { result ≡ inherits (heap_of self.now) object.index other.index }
    {
        let mut chain = self.proto(object);
        for _ in 0..object.index() {
            let Some(at) = chain else {
                return false;
            };
            if at.index() == other.index() {
                return true;
            }
            chain = self.proto(at);
        }
        false
    }

    /// The property of this name that a text has where it is looked into, its own, or else one of
    /// what texts inherit from (6.2.5.5). Want of memory is for a text of one unit.
    pub fn get_of_text(
        &self,
        prototype: Object,
        text: &Str,
        name: &Str,
    ) -> Result<Option<Value>, Memory>
        ensures { IfOk result (λ value. value
            ≡ get_of_text (heap_of self.now) prototype.index text.now name.now) }
    {
        if let Some((value, _)) = self.own_of_text(text, name)? {
            return Ok(Some(value));
        }
        match self.get(prototype, name) {
            Some(value) => value.copy().map(Some),
            None => Ok(None),
        }
    }

    /// The property of this name that a text has of its own where it is looked into (10.4.3.5):
    /// a unit or its length.
    pub fn own_of_text(&self, text: &Str, name: &Str) -> Result<Option<(Value, Flags)>, Memory>
        ensures { IfOk result (λ own. option_map (λ found. property_with name.now found.0 found.1) own
            ≡ own_of_text text.now name.now) }
    {
        texts::own_of_text(self.alloc, text, name)
    }

    /// The own keys of a text that is looked into (10.4.3.3), each with whether it is enumerable, or
    /// want of memory.
    pub fn keys_of_text(&self, text: &Str) -> Result<Items<Key>, Memory>
        ensures { IfOk result (λ found. found ≡ keys_of_text text.now) }
    {
        let mut keys = Items::new(self.alloc);
        keys::put_dense(self.alloc, &mut keys, text.len())?;
        Ok(keys)
    }

    /// Makes an environment of no names inside another one, or inside none (9.1.2.2). On want of
    /// memory nothing changes.
    pub fn env(&mut self, parent: Option<Env>) -> Result<Env, Memory>
        ensures ok { OnOk result (heap_of self.new
            ≡ new_environment (option_map (λ outer. outer.index) parent) (heap_of self.old)) }
        ensures environment { IfOk result (λ made. made.index ≡ next_environment (heap_of self.old)) }
        ensures err { OnErr result (heap_of self.new ≡ heap_of self.old) }
    {
        let made = Env::at(self.environments.len() as u64);
        self.environments
            .push(Environment::new(self.alloc, parent))?;
        Ok(made)
    }

    /// Makes an environment of these names inside another one, or inside none: all are declared at once, in their
    /// order. On want of memory nothing changes.
    pub fn scope(&mut self, parent: Option<Env>, names: Items<Binding>) -> Result<Env, Memory>
        ensures ok { OnOk result (heap_of self.new ≡ record (heap_of self.old) {
          environments = (heap_of self.old).environments ++ record { outer = option_map (λ outer. outer.index) parent; bindings = map plain_binding names } ∷ [];
        }) }
        ensures environment { IfOk result (λ made. made.index ≡ next_environment (heap_of self.old)) }
        ensures err { OnErr result (heap_of self.new ≡ heap_of self.old) }
    {
        let made = Env::at(self.environments.len() as u64);
        let environment = Environment::of(self.alloc, parent, names)?;
        self.environments.push(environment)?;
        Ok(made)
    }

    /// Makes an environment with the names and values of another, within the same (14.7.4.4). On want
    /// of memory nothing changes.
    pub fn copy_env(&mut self, env: Env) -> Result<Env, Memory>
        ensures ok { OnOk result (heap_of self.new ≡ copy_environment env.index (heap_of self.old)) }
        ensures environment { IfOk result (λ made. made.index ≡ next_environment (heap_of self.old)) }
        ensures err { OnErr result (heap_of self.new ≡ heap_of self.old) }
    {
        let copy = self.environment(env).copy(self.alloc)?;
        let made = Env::at(self.environments.len() as u64);
        self.environments.push(copy)?;
        Ok(made)
    }

    /// Declares one more name of the environment (9.1.1.1.2 and 9.1.1.1.3). Without a value it is
    /// not initialized yet. On want of memory nothing changes.
    pub fn declare(
        &mut self,
        env: Env,
        name: &SharedName,
        value: Option<Value>,
        constant: bool,
    ) -> Result<Cell, Memory>
        ensures ok { OnOk result (heap_of self.new ≡ declare env.index
            (record { name = name.now; value = value; constant = constant }) (heap_of self.old)) }
        ensures cell { IfOk result (λ cell. plain_cell cell ≡ record {
          environment = env.index;
          place = length (environment_at (heap_of self.old) env.index).bindings;
        }) }
        ensures err { OnErr result (heap_of self.new ≡ heap_of self.old) }
    {
        let name = name.copy()?;
        let binding = Binding {
            name,
            value,
            constant,
        };
        let place = self.declare_in(env, binding)?;
        Ok(Cell {
            environment: env,
            place: place as u64,
        })
    }

    /// Puts one more name after the others of the environment, and tells its place. On want of memory
    /// nothing changes.
    fn declare_in(&mut self, env: Env, binding: Binding) -> Result<usize, Memory>
        ensures ok { OnOk result (heap_of self.new
            ≡ declare env.index (plain_binding binding) (heap_of self.old)) }
        ensures place { IfOk result (λ place. place
            ≡ length (environment_at (heap_of self.old) env.index).bindings) }
        ensures err { OnErr result (heap_of self.new ≡ heap_of self.old) }
    {
        match self.environments.get_mut(env.index() as usize) {
            Some(environment) => environment.declare(binding),
            None => Ok(0),
        }
    }

    /// The cell of this name: of the environment, or else of the first outward that has it (9.1.2.1).
    pub fn lookup(&self, env: Env, name: &SharedName) -> Option<Cell>
        ensures { option_map plain_cell result
            ≡ lookup (heap_of self.now) env.index name.now }
    {
        if let Some(cell) = self.cell_of(env, name) {
            return Some(cell);
        }
        let mut chain = self.environment(env).outer;
        for _ in 0..env.index() {
            let at = chain?;
            if let Some(cell) = self.cell_of(at, name) {
                return Some(cell);
            }
            chain = self.environment(at).outer;
        }
        None
    }

    /// The value of the cell, lent, or none where it is not initialized (9.1.1.1.6).
    pub fn value_of(&self, cell: Cell) -> Option<&Value>
        ensures { option_copied result ≡ value_of (heap_of self.now) (plain_cell cell) }
    {
        let environment = self.environment(cell.environment);
        let binding = environment.bindings.items.get(cell.place as usize)?;
        binding.value.as_ref()
    }

    /// Gives the cell its first value (9.1.1.1.4).
    pub fn init(&mut self, cell: Cell, value: Value)
        ensures { heap_of self.new ≡ init (plain_cell cell) value (heap_of self.old) }
    {
        match self.environments.get_mut(cell.environment.index() as usize) {
            Some(environment) => environment.bindings.init(cell.place as usize, value),
            None => drop(value),
        }
    }

    /// Gives the cell the value, where it is initialized and not constant (9.1.1.1.5).
    pub fn assign(&mut self, cell: Cell, value: Value) -> Assign
        ensures answer { plain_assign result
            ≡ assign_answer (heap_of self.old) (plain_cell cell) }
        ensures after { heap_of self.new
            ≡ assign (plain_cell cell) value (heap_of self.old) }
    {
        match self.environments.get_mut(cell.environment.index() as usize) {
            Some(environment) => environment.bindings.assign(cell.place as usize, value),
            None => {
                drop(value);
                Assign::Dead
            }
        }
    }

    /// Gives the name its first value where it is, which is told (9.1.1.1.4).
    pub fn init_name(&mut self, env: Env, name: &SharedName, value: Value) -> Option<Cell>
        ensures cell { option_map plain_cell result ≡ lookup (heap_of self.old) env.index name.now }
        ensures after { heap_of self.new ≡ init_name env.index name.now value (heap_of self.old) }
    {
        match self.lookup(env, name) {
            Some(cell) => {
                self.init(cell, value);
                Some(cell)
            }
            None => {
                drop(value);
                None
            }
        }
    }

    /// Gives the name the value where it is, if it is initialized and not constant (9.1.1.1.5): no answer where it
    /// isn't there.
    pub fn assign_name(&mut self, env: Env, name: &SharedName, value: Value) -> Option<Assign>
        ensures answer { option_map plain_assign result ≡ name_answer (heap_of self.old) env.index name.now }
        ensures after { heap_of self.new ≡ assign_name env.index name.now value (heap_of self.old) }
    {
        match self.lookup(env, name) {
            Some(cell) => Some(self.assign(cell, value)),
            None => {
                drop(value);
                None
            }
        }
    }

    /// What a write to the object's property of this name is.
    fn write_of(&self, object: Object, name: &Str, value: &Value) -> Write
        ensures write { plain_write result ≡ write_of (heap_of self.now) object.index name.now value.now }
        ensures place { Placed result name.now (object_at (heap_of self.now) object.index).properties }
    {
        match self.record(object).write_of_own(name, value) {
            Some(write) => write,
            None => self.write_of_absent(object, name),
        }
    }

    /// What a write to a property of this name is, which the object has not itself.
    fn write_of_absent(&self, object: Object, name: &Str) -> Write
        ensures write { plain_write result ≡ write_of_absent (object_at (heap_of self.now) object.index)
            (found object.index (heap_of self.now).objects (object_at (heap_of self.now) object.index).prototype name.now) name.now }
        ensures place { Placed result name.now (object_at (heap_of self.now) object.index).properties }
    {
        if self.bars(object, name) || self.is_frozen(object) {
            Write::ReadOnly
        } else {
            self.record(object).write_of_new(name)
        }
    }

    /// Whether the object inherits a property of this name that may not be written.
    fn bars(&self, object: Object, name: &Str) -> bool
        ensures { result ≡ bars (found object.index (heap_of self.now).objects
            (object_at (heap_of self.now) object.index).prototype name.now) }
    {
        match self.inherited(object, name) {
            Some((_, writable)) => !writable,
            None => false,
        }
    }

    /// The first property of this name along what the object inherits from: its value, lent, and
    /// whether it may be written.
    fn inherited(&self, object: Object, name: &Str) -> Option<(&Value, bool)>
        ensures { option_map (λ f. (f.0.now, f.1)) result ≡ option_map seen_of
            (found object.index (heap_of self.now).objects
            (object_at (heap_of self.now) object.index).prototype name.now) }
    {
        let mut chain = self.proto(object);
        for _ in 0..object.index() {
            let at = chain?;
            let record = self.record(at);
            if let Some((value, flags)) = record.own(name) {
                return Some((value, record.may_write(flags)));
            }
            chain = record.prototype;
        }
        None
    }

    /// The object, lent.
    fn record(&self, object: Object) -> &ObjectRecord
        ensures { plain_object result.now ≡ object_at (heap_of self.now) object.index }
    {
        match self.objects.get(object.index() as usize) {
            Some(record) => record,
            None => &self.nothing.object,
        }
    }

    /// The environment, lent.
    fn environment(&self, env: Env) -> &Environment
        ensures { plain_environment result.now ≡ environment_at (heap_of self.now) env.index }
    {
        match self.environments.get(env.index() as usize) {
            Some(environment) => environment,
            None => &self.nowhere.environment,
        }
    }

    /// The environment's own cell of this name.
    fn cell_of(&self, env: Env, name: &SharedName) -> Option<Cell>
        ensures { option_map plain_cell result ≡ option_map (cell_at env.index)
            (place_of (environment_at (heap_of self.now) env.index) name.now) }
    {
        let place = self.environment(env).bindings.place_of(name)?;
        Some(Cell {
            environment: env,
            place: place as u64,
        })
    }
}
