//! What a coordinator's log keeps is recovered.

ghost use Rattle.salt_decisions.specs.Kept.{IsKept};
ghost use Rattle.salt_found.specs.Definitions.{reading};
ghost use Rattle.salt_found.specs.Recovered.{Recovers};
ghost use Rattle.salt_stands.specs.Coordinator.{coordinator_of};
ghost use Rattle.salt_stands.specs.CoordinatorLog.{CoordinatorLog};

use crate::conts::open_conts;
use crate::definitions::open_definitions;
use crate::error::RecoverErr;
use salt_decisions::Kept;
use salt_program::Catalogue;
use salt_schema::Schema;
use salt_values::Conts;
use std::alloc::Global;

/// What the log of a coordinator stands for.
#[derive(Drop)]
pub struct Recovered {
    /// The tables of its definitions.
    pub schema: Schema,
    /// The programs of its definitions.
    pub catalogue: Catalogue,
    /// Where BASE programs go on, in the order of acceptance.
    pub conts: Conts,
}

/// What the log stands for that keeps this. `NotSalt` exactly where it stands for nothing: a text is that of no definition or of
/// one that is refused, or the continuations are none that the programs have.
pub fn recover(alloc: Global, kept: &Kept) -> Result<Recovered, RecoverErr>
    ensures { (log : CoordinatorLog) → IsKept kept.now log → Recovers result (coordinator_of reading log) }
{
    let (schema, catalogue) = open_definitions(alloc, &kept.definitions)?;
    let conts = open_conts(alloc, &catalogue, kept)?;
    Ok(Recovered {
        schema,
        catalogue,
        conts,
    })
}
