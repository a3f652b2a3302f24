//! What a move makes of the open continuations.

ghost use Rattle.salt_bytes.specs.declared.moves.Move.TheVariants.{Continue, Finish};
ghost use Rattle.salt_stands.specs.OpenConts.{do_rise, make_move};
ghost use Rattle.salt_values.specs.Id.{is_same_id};
ghost use Rattle.salt_values.specs.declared.cont.Cont.{Cont};
ghost use Rattle.std.specs.List.{position};
ghost use Rattle.std.specs.Prelude.{List, OnOk, Some, true, ◌≡◌};

use salt_bytes::Move;
use salt_values::{Cont, Conts, Id, is_same_id};
use std::alloc::AllocError;

/// Where the continuation of a program stands.
fn place_of(conts: &[Cont], base: Id) -> Option<usize>
    ensures { result ≡ position (λ (c : Cont). is_same_id base c.base) conts.now }
{
    conts.iter().position(|cont| is_same_id(base, cont.base))
}

/// Puts a continuation in the place of its program's, or behind the others.
fn go_to(conts: &mut Conts, cont: Cont) -> Result<(), AllocError>
    ensures { do_rise conts.old ≡ true → (cs : List Cont) → make_move conts.old (Continue cont) ≡ Some cs → OnOk result (conts.new ≡ cs) }
{
    match place_of(conts.as_slice(), cont.base) {
        Some(at) => {
            conts.set(at, cont);
            Ok(())
        }
        None => conts.push(cont),
    }
}

/// Takes out the continuation of a program.
fn finish(conts: &mut Conts, base: Id)
    ensures { do_rise conts.old ≡ true → (cs : List Cont) → make_move conts.old (Finish base) ≡ Some cs → conts.new ≡ cs }
{
    match place_of(conts.as_slice(), base) {
        Some(at) => {
            conts.remove(at);
        }
        None => {}
    }
}

/// Makes a move that may be made. After an error the continuations are as before.
pub fn apply_move(conts: &mut Conts, made: Move) -> Result<(), AllocError>
    ensures { do_rise conts.old ≡ true → (cs : List Cont) → make_move conts.old made ≡ Some cs → OnOk result (conts.new ≡ cs) }
{
    match made {
        Move::Plain => Ok(()),
        Move::Continue(cont) => go_to(conts, cont),
        Move::Finish(base) => {
            finish(conts, base);
            Ok(())
        }
    }
}
