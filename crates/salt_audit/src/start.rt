//! What is known before the first event.

ghost use Rattle.std.specs.Prelude.{None, [], ◌≡◌};
ghost use Rattle.salt_audit.specs.Knowing.{Knows};
ghost use Rattle.salt_audit.specs.Retelling.{retold};
ghost use Rattle.salt_audit.specs.Standing.{begun_in};
ghost use Rattle.salt_values.specs.declared.id.Id.{Id};

use crate::names::Names;
use crate::state::{State, Units};
use salt_program::Catalogue;
use salt_schema::Schema;
use sqlite_items::Items;
use std::alloc::Global;
use std::collections::BTreeMap;

fn no_units(alloc: Global) -> Units
    ensures { (u : Id) → begun_in u result ≡ None }
{
    BTreeMap::new(alloc)
}

/// Nothing is known before the first event.
pub fn nothing_known(alloc: Global) -> State
    ensures { Knows result (retold []) }
{
    State {
        opened: false,
        schema: Schema::new(alloc),
        catalogue: Catalogue::new(alloc),
        conts: Items::new(alloc),
        units: no_units(alloc),
        bases: Names::new(alloc),
        accepted: Names::new(alloc),
        finished: Names::new(alloc),
    }
}
