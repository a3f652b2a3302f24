//! What is known before the first event.

ghost use Rattle.salt_audit.specs.Retelling.{retold};
ghost use Rattle.salt_cont.specs.Catalogues.{AllLeadOn};
ghost use Rattle.salt_values.specs.declared.id.Id.{Id};
ghost use Rattle.salt_verdict.specs.Ledger.{HoldsTrace, act_in};
ghost use Rattle.std.specs.Prelude.{None, [], ◌≡◌};

use crate::ledger::{Acts, Ledger};
use crate::rows::Rows;
use salt_audit::nothing_known;
use sqlite_items::Items;
use std::alloc::Global;
use std::collections::BTreeMap;

fn no_acts(alloc: Global) -> Acts
    ensures { (u : Id) → act_in u result ≡ None }
{
    BTreeMap::new(alloc)
}

/// Nothing is told before the first event.
pub fn nothing_told(alloc: Global) -> Ledger
    ensures holds { HoldsTrace result (retold []) }
    ensures leads { AllLeadOn result.state.catalogue }
{
    Ledger {
        state: nothing_known(alloc),
        rows: Rows::none(alloc),
        acts: no_acts(alloc),
        order: Items::new(alloc),
        active: Vec::new(alloc),
    }
}
