ghost use Rattle.std.specs.Prelude.{◌≡◌, List, ℕ, map, position, IfOk};
ghost use Rattle.std.specs.Option.{ForSome};
ghost use Rattle.std.specs.Str.{bytes_eq};
ghost use Rattle.indexmap.specs.IndexMap.{get_by_text};
ghost use Rattle.js_heap.specs.private.Bindings.{or_place, IsIndexOf};
ghost use Rattle.js_heap.specs.private.Mask.{IsMaskOf};

use crate::Assign;
use crate::environment::Binding;
use crate::mask::{lacks, mask_of, with_bit};
use indexmap::IndexMap;
use items::Memory;
use js_names::SharedName;
use js_value::Value;
use std::alloc::Global;

/// How many names are looked for along their list.
const FEW: usize = 8;

/// The names of an environment in the order in which they were declared. A mask tells of most names that are none of them. A few
/// are looked for along their list, which is quick and takes the least memory. From 9 on an index tells the first place of each.
pub struct Bindings {
    pub(crate) items: Vec<Binding>,
    mask: u64,
    index: Option<Box<IndexMap<String, usize>>>,
    ghost masked: { IsMaskOf mask (map (λ b. b.name) items.items) },
    ghost indexed: { ForSome index (λ i. IsIndexOf (get_by_text i.value) (map (λ b. b.name) items.items)) },
}

impl Drop for Bindings {
    // Written out, so that what drops one calls this and needn't prove it again.
    fn drop(self) {
        let Bindings {
            items,
            mask: _,
            index,
        } = self;
        drop(items);
        drop(index);
    }
}

/// The index with the place of one more name, if it has none of it yet.
fn with_name(
    alloc: Global,
    index: Box<IndexMap<String, usize>>,
    name: &SharedName,
    place: usize,
) -> Result<Box<IndexMap<String, usize>>, Memory>
    ensures { IfOk result (λ made. (q : List ℕ) → get_by_text made.value q
        ≡ or_place (get_by_text index.value q) (bytes_eq name.now q) place) }
{
    let mut index = index;
    let text = name.as_str();
    if index.contains_key(text) {
        return Ok(index);
    }
    let key = String::from_str(alloc, text)?;
    index.insert(key, place)?;
    Ok(index)
}

/// The index of these names.
fn index_of(alloc: Global, bindings: &[Binding]) -> Result<Box<IndexMap<String, usize>>, Memory>
    ensures { IfOk result (λ made. IsIndexOf (get_by_text made.value) (map (λ b. b.name) bindings.now)) }
{
    let mut index = Box::new(alloc, IndexMap::new(alloc))?;
    for (place, binding) in bindings.iter().enumerate() {
        index = with_name(alloc, index, &binding.name, place)?;
    }
    Ok(index)
}

/// The index of these names, where they are more than a few.
fn index_of_many(
    alloc: Global,
    bindings: &[Binding],
) -> Result<Option<Box<IndexMap<String, usize>>>, Memory>
    ensures { IfOk result (λ made. ForSome made (λ i. IsIndexOf (get_by_text i.value) (map (λ b. b.name) bindings.now))) }
{
    if bindings.len() <= FEW {
        return Ok(None);
    }
    index_of(alloc, bindings).map(Some)
}

impl Bindings {
    ghost use Rattle.std.specs.Prelude.{[], ◌∷◌, ◌++◌, None, OnOk, OnErr};
    ghost use Rattle.js_heap.specs.Environment.{plain_bindings, plain_assign};
    ghost use Rattle.js_value.specs.Environments.{assign_to};
    ghost use Rattle.js_heap.specs.private.Bindings.{binding_among, with_initialized_among, with_assigned_among};

    /// No names, which take no memory.
    pub fn none(alloc: Global) -> Bindings
        ensures { result.items.items ≡ [] }
    {
        Bindings {
            items: Vec::new(alloc),
            mask: 0,
            index: None,
        }
    }

    /// These names.
    pub fn of(alloc: Global, items: Vec<Binding>) -> Result<Bindings, Memory>
        ensures { IfOk result (λ made. made.items.items ≡ items.items) }
    {
        let index = index_of_many(alloc, items.as_slice())?;
        let mask = mask_of(items.as_slice());
        Ok(Bindings { items, mask, index })
    }

    /// The first place of this name.
    pub fn place_of(&self, name: &SharedName) -> Option<usize>
        ensures { result ≡ position (λ b. bytes_eq b.name name.now) self.now.items.items }
    {
        if lacks(self.mask, name) {
            return None;
        }
        match &self.index {
            Some(index) => index.get(name.as_str()).copied(),
            None => self.items.iter().position(|binding| binding.has(name)),
        }
    }

    /// Puts one more name after the others. On want of memory nothing changes.
    pub fn push(&mut self, binding: Binding) -> Result<(), Memory>
        ensures ok { OnOk result (self.new.items.items ≡ self.old.items.items ++ binding ∷ []) }
        ensures err { OnErr result (self.new.items.items ≡ self.old.items.items) }
    {
        self.items.reserve(1)?;
        let index = self.index_with(&binding.name)?;
        self.mask = with_bit(self.mask, &binding.name);
        self.items.push_reserved(binding);
        self.index = index;
        Ok(())
    }

    /// The index of these names and one more, where there are more than a few. It is taken away from
    /// these.
    fn index_with(
        &mut self,
        name: &SharedName,
    ) -> Result<Option<Box<IndexMap<String, usize>>>, Memory>
        ensures index { IfOk result (λ made. ForSome made (λ i.
            IsIndexOf (get_by_text i.value) (map (λ b. b.name) self.old.items.items ++ name.now ∷ []))) }
        ensures items { self.new.items ≡ self.old.items }
        ensures none { self.new.index ≡ None }
    {
        let alloc = *self.items.allocator();
        let place = self.items.len();
        if let Some(index) = self.index.take() {
            return with_name(alloc, index, name, place).map(Some);
        }
        if place < FEW {
            return Ok(None);
        }
        let index = index_of(alloc, self.items.as_slice())?;
        with_name(alloc, index, name, place).map(Some)
    }

    /// Gives the name at this place, where there is one, its first value (9.1.1.1.4).
    pub fn init(&mut self, place: usize, value: Value)
        ensures { plain_bindings self.new ≡ with_initialized_among place value (plain_bindings self.old) }
    {
        match self.items.get_mut(place) {
            Some(binding) => binding.init(value),
            None => drop(value),
        }
    }

    /// Gives the name at this place the value, where there is one that is initialized and not constant
    /// (9.1.1.1.5).
    pub fn assign(&mut self, place: usize, value: Value) -> Assign
        ensures answer { plain_assign result ≡ assign_to (binding_among (plain_bindings self.old) place) }
        ensures after { plain_bindings self.new ≡ with_assigned_among place value (plain_bindings self.old) }
    {
        match self.items.get_mut(place) {
            Some(binding) => binding.assign(value),
            None => {
                drop(value);
                Assign::Dead
            }
        }
    }
}
