//! Names that are marked.

ghost use Rattle.salt_values.specs.Id.{has_id, is_same_id};
ghost use Rattle.salt_values.specs.declared.id.Id.{Id};
ghost use Rattle.salt_audit.specs.Marks.{is_marked};
ghost use Rattle.std.specs.Prelude.{OnErr, OnOk, false, ◌||◌, ◌≡◌};

use salt_values::Id;
use std::alloc::{AllocError, Global};
use std::collections::BTreeMap;

/// Names that are marked.
pub type Marks = BTreeMap<Id, bool>;

/// Nothing is marked.
pub fn no_marks(alloc: Global) -> Marks
    ensures { (u : Id) → is_marked u result ≡ false }
{
    BTreeMap::new(alloc)
}

/// Whether the name is marked.
pub fn is_marked(marks: &Marks, id: Id) -> bool
    ensures { result ≡ is_marked id marks.now }
{
    match marks.get(&id) {
        Some(_mark) => true,
        None => false,
    }
}

/// Marks one more. An `AllocError` marks nothing.
pub fn mark(marks: &mut Marks, id: Id) -> Result<(), AllocError>
    ensures ok { OnOk result ((u : Id) → is_marked u marks.new ≡ (is_same_id u id || is_marked u marks.old)) }
    ensures err { OnErr result ((u : Id) → is_marked u marks.new ≡ is_marked u marks.old) }
{
    marks.insert(id, true)?;
    Ok(())
}

/// Marks all these.
pub fn mark_all(marks: &mut Marks, ids: &[Id]) -> Result<(), AllocError>
    ensures { OnOk result ((u : Id) → is_marked u marks.new ≡ (has_id u ids.now || is_marked u marks.old)) }
{
    for id in ids {
        mark(marks, *id)?;
    }
    Ok(())
}
