//! Names in the order in which they came, found by an index.

ghost use Rattle.salt_audit.specs.Marks.{AreMarks};
ghost use Rattle.salt_values.specs.Id.{has_id};
ghost use Rattle.std.specs.Prelude.{[], OnErr, OnOk, ◌++◌, ◌∷◌, ◌≡◌};

use crate::marks::{Marks, is_marked, mark, no_marks};
use salt_values::{Id, Ids};
use sqlite_items::Items;
use std::alloc::{AllocError, Global};
use std::marker::Model;

/// Puts a name behind those that are marked, and marks it.
fn put(ids: &mut Ids, marks: &mut Marks, id: Id) -> Result<(), AllocError>
    requires { AreMarks marks.old ids.old }
    ensures ok { OnOk result (ids.new ≡ ids.old ++ id ∷ []) }
    ensures err { OnErr result (ids.new ≡ ids.old) }
    ensures marks { AreMarks marks.new ids.new }
{
    ids.push(id)?;
    match mark(marks, id) {
        Ok(()) => Ok(()),
        Err(full) => {
            ids.pop();
            Err(full)
        }
    }
}

/// Names in the order in which they came. Contracts see their list.
#[derive(Drop)]
pub struct Names {
    ids: Ids,
    marks: Marks,
}

impl Model for Names {
    ghost use Rattle.salt_audit.specs.Marks.{AreMarks};
    ghost use Rattle.salt_values.specs.declared.id.Id.{Id};
    ghost use Rattle.std.specs.Prelude.{List};

    ghost Value = { List Id };

    ghost view = { λ n. n.ids };

    ghost invariant = { λ n. AreMarks n.marks n.ids };
}

impl Names {
    /// No names.
    pub fn new(alloc: Global) -> Names
        ensures { result ≡ [] }
    {
        Names {
            ids: Items::new(alloc),
            marks: no_marks(alloc),
        }
    }

    /// The names in their order.
    pub fn as_slice(&self) -> &[Id]
        ensures { result.now ≡ self.now }
    {
        self.ids.as_slice()
    }

    /// Whether the name is among them.
    pub fn has(&self, id: Id) -> bool
        ensures { result ≡ has_id id self.now }
    {
        is_marked(&self.marks, id)
    }

    /// Puts a name behind them. An `AllocError` leaves them as they were.
    pub fn push(&mut self, id: Id) -> Result<(), AllocError>
        ensures ok { OnOk result (self.new ≡ self.old ++ id ∷ []) }
        ensures err { OnErr result (self.new ≡ self.old) }
    {
        put(&mut self.ids, &mut self.marks, id)
    }
}
