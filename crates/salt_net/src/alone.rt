//! A commit by the rule of turns, in which nothing is made durable.

ghost use Rattle.salt_net.specs.Ended.{IsQuiet};
ghost use Rattle.salt_net.specs.Nets.{can_happen, state_of};
ghost use Rattle.salt_net.specs.Paces.{AllCan, turning_of};
ghost use Rattle.salt_net.specs.Turns.{commits};
ghost use Rattle.salt_net.specs.declared.kinds.NetEvent.TheVariants.{Start};
ghost use Rattle.std.specs.Prelude.{[], OnOk, true, ◌≡◌};

use crate::nodes::Nodes;
use crate::pace::Messages;
use salt_values::{Id, next_number};
use std::alloc::AllocError;

/// Does what a turn has left to do.
fn finish(messages: &mut Messages) -> Result<(), AllocError>
    requires { AllCan (state_of messages.old.done) messages.old.ahead }
    ensures same { OnOk result (turning_of messages.new ≡ turning_of messages.old) }
    ensures ahead { OnOk result (messages.new.ahead ≡ []) }
{
    'left: while messages.has_left() {
        messages.go_on()?;
    }
    Ok(())
}

/// A commit of a unit with these nodes, each of which does at once what it is told. It ends within the bound of the rule of turns.
pub fn commit_alone(messages: &mut Messages, unit: Id, nodes: Nodes) -> Result<(), AllocError>
    requires ahead { messages.old.ahead ≡ [] }
    requires quiet { IsQuiet (turning_of messages.old) }
    requires can { can_happen (state_of messages.old.done) (Start unit nodes) ≡ true }
    ensures commits { OnOk result (turning_of messages.new ≡ commits unit nodes (turning_of messages.old)) }
    ensures ahead { OnOk result (messages.new.ahead ≡ []) }
{
    messages.start(unit, nodes)?;
    let mut steps: u64 = 0;
    'turns: while messages.plan(unit) {
        finish(messages)?;
        steps = next_number(steps)?;
    }
    Ok(())
}
