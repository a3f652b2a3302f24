//! What a move in hand tells of itself.

ghost use Rattle.salt_bytes.specs.Spellable.{IsSpellableCont, IsSpellableId, IsSpellableMove};
ghost use Rattle.salt_decisions.specs.declared.header_payload.TheConstants.{FORMAT};

use salt_bytes::Move;
use salt_codec::told_row;
use salt_values::{Cont, Id};

fn told_id(id: &Id)
    ensures { IsSpellableId id.now }
{
    let _boot = id.boot;
    let _seq = id.seq;
}

fn told_cont(cont: &Cont)
    ensures { IsSpellableCont FORMAT cont.now }
{
    let _boot = cont.base.boot;
    let _seq = cont.base.seq;
    let _accepted = cont.accepted;
    let _next = cont.next;
    told_row(cont.args.as_slice());
    told_row(cont.vars.as_slice());
}

/// A move in hand can be spelled in the newest format.
pub fn told_move(made: &Move)
    ensures { IsSpellableMove FORMAT made.now }
{
    match made {
        Move::Plain => {}
        Move::Continue(cont) => told_cont(cont),
        Move::Finish(base) => told_id(base),
    }
}
