//! Names of programs that go on.

ghost use Rattle.law_states.specs.Rising.{Rising};
ghost use Rattle.salt_books.specs.Bases.{bases_in};
ghost use Rattle.salt_values.specs.Id.{in_order};
ghost use Rattle.salt_values.specs.declared.cont.Cont.{Cont};
ghost use Rattle.std.specs.Prelude.{IfOk, IsTrue, map, ◌≡◌};

use salt_values::{Cont, Id, insert_id};
use std::alloc::{AllocError, Global};

/// The names of programs that go on, as these stand.
fn bases_in(alloc: Global, conts: &[Cont]) -> Result<Vec<Id>, AllocError>
    ensures { IfOk result (λ ids. ids.items ≡ bases_in conts.now) }
{
    let mut ids = Vec::new(alloc);
    for cont in conts {
        ids.push(cont.base)?;
    }
    Ok(ids)
}

/// The names of programs that go on, in order, each once.
fn bases_in_order(alloc: Global, conts: &[Cont]) -> Result<Vec<Id>, AllocError>
    ensures { IfOk result (λ ids. ids.items ≡ in_order (map (λ (c : Cont). c.base) conts.now)) }
{
    let mut ids = Vec::new(alloc);
    let mut at = conts.len();
    while at > 0 {
        at -= 1;
        insert_id(&mut ids, conts[at].base)?;
    }
    Ok(ids)
}

/// The same, where it is known or not that they stand in the order of their names.
pub fn bases_among(alloc: Global, conts: &[Cont], rising: bool) -> Result<Vec<Id>, AllocError>
    requires { IsTrue rising → Rising (bases_in conts.now) }
    ensures { IfOk result (λ ids. ids.items ≡ in_order (bases_in conts.now)) }
{
    if rising {
        bases_in(alloc, conts)
    } else {
        bases_in_order(alloc, conts)
    }
}
