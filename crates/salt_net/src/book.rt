//! What has been sent and what is kept of each unit.

ghost use Rattle.salt_net.specs.Kept.{AreBegun};

use crate::ballot::Ballot;
use crate::deeds::{deed_of, is_done};
use crate::kept::Kept;
use crate::kinds::{Deed, Message, NetEvent, NodeStatus};
use crate::nodes::{Nodes, are_nodes, is_node_of};
use crate::polls::Polls;
use crate::reaction::{asking, hearing, refusing, resending, starting};
use salt_values::{Id, next_number};
use std::alloc::{AllocError, Global};

/// All messages that were ever sent, and what is kept of each unit by its name.
#[derive(Drop)]
pub struct Book {
    pub sent: Vec<Message>,
    pub polls: Polls,
    pub restarts: u64,
    ghost begun: { AreBegun polls.by_name restarts },
}

impl Book {
    ghost use Rattle.salt_net.specs.Ballots.{poll_of};
    ghost use Rattle.salt_net.specs.Books.{AreNamed, state_in, with_kept};
    ghost use Rattle.salt_net.specs.Deeds.{deed, deed_at};
    ghost use Rattle.salt_net.specs.Nets.{after, can_happen, delivered, no_net, node_of, status_of};
    ghost use Rattle.salt_net.specs.Turns.{is_done};
    ghost use Rattle.salt_net.specs.declared.kinds.NetEvent.TheVariants.{Ask, Deliver, Refuse, Resend, Restart, Start};
    ghost use Rattle.std.specs.Option.{option_map_or};
    ghost use Rattle.std.specs.Prelude.{◌≡◌, ◌≤◌, OnErr, OnOk, option_map, take, true};

    /// Nothing has been sent, and no unit was started.
    pub fn new(alloc: Global) -> Book
        ensures { state_in result ≡ no_net }
    {
        Book {
            sent: Vec::new(alloc),
            polls: Polls::new(alloc),
            restarts: 0,
        }
    }

    /// What is held of a unit, if it was started.
    fn ballot(&self, unit: Id) -> Option<Ballot>
        ensures { option_map poll_of result ≡ (state_in self.now).polls unit }
    {
        match self.polls.get(unit) {
            Some(kept) => Some(kept.since(self.restarts)),
            None => None,
        }
    }

    /// What a node holds of a unit.
    pub fn status(&self, unit: Id, node: u8) -> NodeStatus
        ensures { result ≡ status_of (state_in self.now) unit node }
    {
        match self.ballot(unit) {
            Some(ballot) => ballot.status(node),
            None => {
                if node == 0 {
                    NodeStatus::Unknown
                } else {
                    NodeStatus::Idle
                }
            }
        }
    }

    /// Whether every node of a unit is done, or the unit was not started.
    pub fn is_done(&self, unit: Id) -> bool
        ensures { result ≡ option_map_or is_done ((state_in self.now).polls unit) true }
    {
        match self.ballot(unit) {
            Some(ballot) => is_done(&ballot),
            None => true,
        }
    }

    /// What a message makes durable where it comes.
    fn deed_of(&self, message: Message) -> Deed
        requires { node_of message ≤ 8 }
        ensures { result ≡ deed_at (state_in self.now) (Some message) }
    {
        match self.ballot(message.unit()) {
            Some(ballot) => deed_of(message, &ballot),
            None => Deed::Nothing,
        }
    }

    /// What the message of a number makes durable where it comes; nothing where there is none.
    pub fn deed(&self, number: u64) -> Deed
        requires { AreNamed (state_in self.now) }
        ensures { result ≡ deed (state_in self.now) number }
    {
        match self.sent.get(number as usize) {
            Some(message) => self.deed_of(*message),
            None => Deed::Nothing,
        }
    }

    /// Whether a node of a unit holds nothing of it yet.
    fn can_refuse(&self, unit: Id, node: u8) -> bool
        ensures { result ≡ can_happen (state_in self.now) (Refuse unit node) }
    {
        match self.ballot(unit) {
            Some(ballot) => {
                is_node_of(ballot.nodes(), node) && ballot.held(node) == NodeStatus::Idle
            }
            None => false,
        }
    }

    /// Whether a node is prepared for a unit.
    fn can_ask(&self, unit: Id, node: u8) -> bool
        ensures { result ≡ can_happen (state_in self.now) (Ask unit node) }
    {
        match self.ballot(unit) {
            Some(ballot) => ballot.held(node) == NodeStatus::Prepared,
            None => false,
        }
    }

    /// Whether an event can happen.
    pub fn can_happen(&self, event: &NetEvent) -> bool
        ensures { result ≡ can_happen (state_in self.now) event.now }
    {
        match event {
            NetEvent::Start { unit, nodes } => {
                self.ballot(*unit).is_none() && are_nodes(nodes.as_slice())
            }
            NetEvent::Deliver(number) => *number < self.sent.len() as u64,
            NetEvent::Refuse { unit, node } => self.can_refuse(*unit, *node),
            NetEvent::Resend(unit) => self.ballot(*unit).is_some(),
            NetEvent::Ask { unit, node } => self.can_ask(*unit, *node),
            NetEvent::Restart(node) => *node <= 8,
        }
    }

    /// Keeps what is held of a unit; where memory runs out, what was sent behind so many messages is taken back.
    fn keep(&mut self, unit: Id, ballot: Ballot, before: usize) -> Result<(), AllocError>
        ensures ok { OnOk result (state_in self.new ≡ with_kept unit (poll_of ballot) (state_in self.old)) }
        ensures err { OnErr result (state_in self.new ≡ record { sent = take before (state_in self.old).sent; polls = (state_in self.old).polls }) }
    {
        let kept = Kept {
            ballot,
            begun: self.restarts,
        };
        match self.polls.insert(unit, &kept) {
            Ok(()) => Ok(()),
            Err(e) => {
                self.sent.truncate(before);
                Err(e)
            }
        }
    }

    /// A unit of these nodes is started.
    fn start(&mut self, unit: Id, nodes: Nodes) -> Result<(), AllocError>
        requires { can_happen (state_in self.old) (Start unit nodes) ≡ true }
        ensures ok { OnOk result (state_in self.new ≡ after (state_in self.old) (Start unit nodes)) }
        ensures err { OnErr result (state_in self.new ≡ state_in self.old) }
    {
        let before = self.sent.len();
        let next = starting(&mut self.sent, unit, nodes)?;
        self.keep(unit, next, before)
    }

    /// A message comes.
    fn hear(&mut self, message: Message) -> Result<(), AllocError>
        requires { node_of message ≤ 8 }
        ensures ok { OnOk result (state_in self.new ≡ delivered (state_in self.old) (Some message)) }
        ensures err { OnErr result (state_in self.new ≡ state_in self.old) }
    {
        let unit = message.unit();
        let Some(ballot) = self.ballot(unit) else {
            return Ok(());
        };
        let before = self.sent.len();
        let next = hearing(&mut self.sent, message, ballot)?;
        self.keep(unit, next, before)
    }

    /// The message of a number comes.
    fn deliver(&mut self, number: u64) -> Result<(), AllocError>
        requires { AreNamed (state_in self.old) }
        ensures ok { OnOk result (state_in self.new ≡ after (state_in self.old) (Deliver number)) }
        ensures err { OnErr result (state_in self.new ≡ state_in self.old) }
    {
        match self.sent.get(number as usize) {
            Some(message) => {
                let message = *message;
                self.hear(message)
            }
            None => Ok(()),
        }
    }

    /// A node gives up a unit of which it holds nothing yet.
    fn refuse(&mut self, unit: Id, node: u8) -> Result<(), AllocError>
        requires can { can_happen (state_in self.old) (Refuse unit node) ≡ true }
        requires named { AreNamed (state_in self.old) }
        ensures ok { OnOk result (state_in self.new ≡ after (state_in self.old) (Refuse unit node)) }
        ensures err { OnErr result (state_in self.new ≡ state_in self.old) }
    {
        let Some(ballot) = self.ballot(unit) else {
            return Ok(());
        };
        let before = self.sent.len();
        let next = refusing(&mut self.sent, unit, node, ballot)?;
        self.keep(unit, next, before)
    }

    /// The coordinator sends again what was not answered.
    fn resend(&mut self, unit: Id) -> Result<(), AllocError>
        ensures ok { OnOk result (state_in self.new ≡ after (state_in self.old) (Resend unit)) }
        ensures err { OnErr result (state_in self.new ≡ state_in self.old) }
    {
        let Some(ballot) = self.ballot(unit) else {
            return Ok(());
        };
        let before = self.sent.len();
        let next = resending(&mut self.sent, unit, ballot)?;
        self.keep(unit, next, before)
    }

    /// A node asks how a unit ended.
    fn ask(&mut self, unit: Id, node: u8) -> Result<(), AllocError>
        ensures ok { OnOk result (state_in self.new ≡ after (state_in self.old) (Ask unit node)) }
        ensures err { OnErr result (state_in self.new ≡ state_in self.old) }
    {
        let Some(ballot) = self.ballot(unit) else {
            return Ok(());
        };
        let before = self.sent.len();
        let next = asking(&mut self.sent, unit, node, ballot)?;
        self.keep(unit, next, before)
    }

    /// A node starts again.
    fn restart(&mut self, node: u8) -> Result<(), AllocError>
        ensures ok { OnOk result (state_in self.new ≡ after (state_in self.old) (Restart node)) }
        ensures err { OnErr result (state_in self.new ≡ state_in self.old) }
    {
        if node == 0 {
            self.restarts = next_number(self.restarts)?;
        }
        Ok(())
    }

    /// An event that can happen happens. Where memory runs out, it does not.
    pub fn happen(&mut self, event: &NetEvent) -> Result<(), AllocError>
        requires can { can_happen (state_in self.old) event.now ≡ true }
        requires named { AreNamed (state_in self.old) }
        ensures ok { OnOk result (state_in self.new ≡ after (state_in self.old) event.now) }
        ensures err { OnErr result (state_in self.new ≡ state_in self.old) }
    {
        match event {
            NetEvent::Start { unit, nodes } => self.start(*unit, *nodes),
            NetEvent::Deliver(number) => self.deliver(*number),
            NetEvent::Refuse { unit, node } => self.refuse(*unit, *node),
            NetEvent::Resend(unit) => self.resend(*unit),
            NetEvent::Ask { unit, node } => self.ask(*unit, *node),
            NetEvent::Restart(node) => self.restart(*node),
        }
    }
}
