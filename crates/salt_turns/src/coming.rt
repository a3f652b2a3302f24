//! What comes next of a unit's commit over messages, and its turns one event after another.

ghost use Rattle.salt_net.specs.Flags.{are_nodes};
ghost use Rattle.salt_turns.specs.Amid.{HasEndedTurns, IsOnTheWay, IsUndecided, IsUnknown, Rests, behind_next, first_of, next_by, next_in, status_now};
ghost use Rattle.salt_turns.specs.declared.coming.Next.TheVariants.{Decides};
ghost use Rattle.salt_net.specs.Turns.{Turning};
ghost use Rattle.salt_net.specs.declared.kinds.NodeStatus.TheVariants.{Idle, Started};
ghost use Rattle.salt_values.specs.declared.id.Id.{Id};
ghost use Rattle.std.specs.Prelude.{IfSome, List, None, OnOk, false, true, ℕ, ◌≡◌, ◌≢◌, ◌≤◌, ◌⊎◌};

use salt_net::{Deed, Left, Messages, NodeStatus, Nodes};
use salt_values::Id;
use std::alloc::AllocError;

/// What the event does that comes next: a node starts again, is prepared, or ends by the decision; or the coordinator decides.
#[derive(Clone, Copy, Debug, PartialEq, Eq)]
pub enum Next {
    Nothing,
    Restarts(u8),
    Prepares(u8),
    Decides,
    Ends(u8),
}

fn next_by(deed: Deed) -> Next
    ensures { result ≡ next_by deed }
{
    match deed {
        Deed::Nothing => Next::Nothing,
        Deed::Prepares(node) => Next::Prepares(node),
        Deed::Decides(_) => Next::Decides,
        Deed::Ends(node, _) => Next::Ends(node),
    }
}

/// What comes next; nothing where the turn is over.
pub fn next_of(messages: &Messages) -> Next
    ensures { result ≡ next_in messages.now }
{
    match messages.left() {
        Left::Nothing => Next::Nothing,
        Left::Deliver(number) => next_by(messages.net().deed(number)),
        Left::Twice(number) => next_by(messages.net().deed(number)),
        Left::Restart(node, _) => Next::Restarts(node),
        Left::Resend(_) => Next::Nothing,
    }
}

/// What comes next while nodes are still asked to prepare: the coordinator has not decided, and does not decide next.
pub fn next_vote(messages: &Messages, unit: Id) -> Option<Next>
    ensures some { IfSome result (λ next. (next ≡ next_in messages.now) × (next_in messages.now ≢ Decides) × (status_now messages.now unit 0 ≡ Started)) }
    ensures none { result ≡ None → (next_in messages.now ≡ Decides) ⊎ (status_now messages.now unit 0 ≢ Started) }
{
    let next = next_of(messages);
    if next == Next::Decides || messages.net().status(unit, 0) != NodeStatus::Started {
        return None;
    }
    Some(next)
}

/// Starts a unit of these nodes, in a net that rests and in which it was not started.
pub fn begin(messages: &mut Messages, unit: Id, nodes: Nodes) -> Result<(), AllocError>
    requires rests { Rests messages.old }
    requires new { IsUnknown unit messages.old }
    requires nodes { are_nodes nodes ≡ true }
    ensures way { OnOk result (IsOnTheWay unit nodes (first_of unit nodes messages.old) messages.new) }
    ensures idle { OnOk result ((p : ℕ) → 1 ≤ p → status_now messages.new unit p ≡ Idle) }
    ensures undecided { OnOk result (IsUndecided unit nodes messages.new) }
{
    messages.start(unit, nodes)
}

/// Does the event that comes next, if one does. Where memory runs out it is not done.
pub fn go_on(messages: &mut Messages) -> Result<(), AllocError>
    requires { (unit : Id) × (nodes : List ℕ) × (first : Turning) × IsOnTheWay unit nodes first messages.old }
    ensures way { (unit : Id) (nodes : List ℕ) (first : Turning) → IsOnTheWay unit nodes first messages.old → OnOk result (IsOnTheWay unit nodes first messages.new) }
    ensures held { (unit : Id) (nodes : List ℕ) (first : Turning) → IsOnTheWay unit nodes first messages.old
        → OnOk result (status_now messages.old unit 0 ≡ Started → next_in messages.old ≢ Decides → (p : ℕ) → status_now messages.new unit p ≡ behind_next (next_in messages.old) p (status_now messages.old unit p)) }
{
    messages.go_on()
}

/// Does the event that comes next; where the turn is over, plans the next one.
pub fn pass(messages: &mut Messages, unit: Id) -> Result<(), AllocError>
    requires { (nodes : List ℕ) × (first : Turning) × IsOnTheWay unit nodes first messages.old }
    ensures way { (nodes : List ℕ) (first : Turning) → IsOnTheWay unit nodes first messages.old → OnOk result (IsOnTheWay unit nodes first messages.new) }
    ensures held { OnOk result (status_now messages.old unit 0 ≡ Started → next_in messages.old ≢ Decides → (p : ℕ) → status_now messages.new unit p ≡ behind_next (next_in messages.old) p (status_now messages.old unit p)) }
{
    if messages.has_left() {
        return go_on(messages);
    }
    messages.plan(unit);
    Ok(())
}

/// Whether turns go on; where one is over, the next one is planned.
pub fn has_next(messages: &mut Messages, unit: Id) -> bool
    requires { (nodes : List ℕ) × (first : Turning) × IsOnTheWay unit nodes first messages.old }
    ensures way { (nodes : List ℕ) (first : Turning) → IsOnTheWay unit nodes first messages.old → IsOnTheWay unit nodes first messages.new }
    ensures ended { result ≡ false → HasEndedTurns unit messages.new }
{
    if messages.has_left() {
        return true;
    }
    messages.plan(unit)
}
