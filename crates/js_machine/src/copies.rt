// What is needed twice.

ghost use Rattle.std.specs.Prelude.{◌≡◌, ◌∷◌, IfOk};

use crate::parts::{Labels, MemberKey, Reference, Title};
use items::{Items, Memory};
use std::alloc::Global;

/// The key of a member once more.
pub fn copy_key(key: &MemberKey) -> Result<MemberKey, Memory>
    ensures { IfOk result (λ copy. copy ≡ key.now) }
{
    match key {
        MemberKey::Name(name) => Ok(MemberKey::Name(*name)),
        MemberKey::Value(value) => Ok(MemberKey::Value(value.copy()?)),
    }
}

/// A reference once more.
pub fn copy_reference(reference: &Reference) -> Result<Reference, Memory>
    ensures { IfOk result (λ copy. copy ≡ reference.now) }
{
    match reference {
        Reference::Name(name) => Ok(Reference::Name(*name)),
        Reference::Member { base, key } => {
            let base = base.copy()?;
            Ok(Reference::Member {
                base,
                key: copy_key(key)?,
            })
        }
    }
}

/// A text once more.
pub fn copy_title(title: &Title) -> Result<Title, Memory>
    ensures { IfOk result (λ copy. copy ≡ title.now) }
{
    match title {
        Title::Empty => Ok(Title::Empty),
        Title::Name(name) => Ok(Title::Name(*name)),
        Title::Text(units) => Ok(Title::Text(units.copy()?)),
    }
}

/// A label before others.
pub fn label_first(alloc: Global, label: usize, others: &Labels) -> Result<Labels, Memory>
    ensures { IfOk result (λ labels. labels ≡ label ∷ others.now) }
{
    let mut labels = Vec::new(alloc);
    labels.push(label)?;
    labels.extend_from_slice(others.as_slice())?;
    Ok(Items::from_vec(labels))
}

/// Labels once more.
pub fn copy_labels(alloc: Global, labels: &Labels) -> Result<Labels, Memory>
    ensures { IfOk result (λ copy. copy ≡ labels.now) }
{
    Ok(Items::from_vec(Vec::from_slice(alloc, labels.as_slice())?))
}
