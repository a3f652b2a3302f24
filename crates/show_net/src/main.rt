//! Runs a script in memory, and prints behind its story what happened in the net that its commits went over, and which messages were sent.
#![tactic(auto)]

ghost use Rattle.salt_place.specs.Placement.{IsParts, place_of};
ghost use Rattle.std.specs.Prelude.{◌≡◌};

use salt_disk::MemDisks;
use salt_io::{StdSink, StdSource};
use salt_net::{Message, Net, NetErr, NetEvent};
use salt_place::{PlaceKind, Placement, place_of};
use salt_run::{Status, run};
use salt_values::{Id, Key};
use std::alloc::AllocError;
use std::process::ExitCode;
use std::rt::Env;
use std::{env, io};

/// How many devices there are, and how long each may be.
const DEVICES: u32 = 26;

const LIMIT: u64 = 67_108_864;

/// Why no net is shown.
#[derive(Clone, Copy, Debug, PartialEq, Eq)]
enum ShowErr {
    /// The words, or what is printed.
    Streams,
    Memory,
}

impl From<AllocError> for ShowErr {
    fn from(_e: AllocError) -> ShowErr {
        ShowErr::Memory
    }
}

impl From<NetErr> for ShowErr {
    fn from(_e: NetErr) -> ShowErr {
        ShowErr::Memory
    }
}

impl From<io::Error> for ShowErr {
    fn from(_e: io::Error) -> ShowErr {
        ShowErr::Streams
    }
}

/// The words behind the program's name.
fn words(rt: &(impl Env + AllocGlobal)) -> io::Result<Vec<String>> {
    let mut words = Vec::new(rt.alloc());
    for word in env::args(rt)?.skip(1) {
        words.push(word)?;
    }
    Ok(words)
}

/// What a message says.
fn said(message: Message) -> &'static str {
    match message {
        Message::Prepare(_, _) => "prepare",
        Message::Vote(_, _, true) => "yes",
        Message::Vote(_, _, false) => "no",
        Message::Decide(_, _, true) => "commit",
        Message::Decide(_, _, false) => "abort",
        Message::Done(_, _) => "done",
        Message::Asked(_, _) => "asks",
    }
}

/// Prints a message that is sent.
fn show_message(rt: &HostRuntime, number: usize, message: Message) -> Result<(), ShowErr> {
    let said = said(message);
    let Id { boot, seq } = message.unit();
    let node = u64::from(message.node());
    Ok(rt.println(format_args!("net sends {number} {said} {boot}.{seq} {node}"))?)
}

/// Prints what is done of a unit.
fn show_unit(rt: &HostRuntime, what: &str, unit: Id) -> Result<(), ShowErr> {
    let Id { boot, seq } = unit;
    Ok(rt.println(format_args!("net {what} {boot}.{seq}"))?)
}

/// Prints what happens.
fn show_event(rt: &HostRuntime, event: &NetEvent) -> Result<(), ShowErr> {
    match event {
        NetEvent::Start { unit, nodes: _ } => show_unit(rt, "starts", *unit),
        NetEvent::Deliver(number) => Ok(rt.println(format_args!("net takes {number}"))?),
        NetEvent::Refuse { unit, node: _ } => show_unit(rt, "refuses", *unit),
        NetEvent::Resend(unit) => show_unit(rt, "resends", *unit),
        NetEvent::Ask { unit, node: _ } => show_unit(rt, "asks", *unit),
        NetEvent::Restart(node) => {
            let node = u64::from(*node);
            Ok(rt.println(format_args!("net restarts {node}"))?)
        }
    }
}

/// Prints the messages from a number on.
fn show_messages(rt: &HostRuntime, first: usize, sent: &[Message]) -> Result<(), ShowErr> {
    for number in first..sent.len() {
        show_message(rt, number, sent[number])?;
    }
    Ok(())
}

/// Prints what happened, each event with the messages that it sends.
fn show_events(rt: &HostRuntime, net: &Net) -> Result<(), ShowErr> {
    let mut again = Net::new(rt.alloc());
    for event in net.done() {
        let told = again.sent().len();
        show_event(rt, event)?;
        again.step(*event)?;
        show_messages(rt, told, again.sent())?;
    }
    Ok(())
}

/// Prints which units have not ended at each of their nodes.
fn show_left(rt: &HostRuntime, net: &Net) -> Result<(), ShowErr> {
    for event in net.done() {
        if let NetEvent::Start { unit, nodes: _ } = event {
            if !net.is_done(*unit) {
                show_unit(rt, "leaves", *unit)?;
            }
        }
    }
    Ok(())
}

/// Runs what the words say.
fn show(rt: &HostRuntime) -> Result<Status, ShowErr> {
    let words = words(rt)?;
    let place = Placement::new(
        |kind: PlaceKind, key: &Key, parts: u32| -> u32
            requires { IsParts parts }
            ensures { result ≡ place_of kind key.now parts }
        { place_of(kind, key, parts) },
    );
    let mut disks = MemDisks::new(rt.alloc(), DEVICES, LIMIT)?;
    let mut source = StdSource::new(rt.reader());
    let mut sink = StdSink::new(io::writer(rt));
    let ended = run(
        rt.alloc(),
        words.as_slice(),
        &mut source,
        &mut sink,
        &mut disks,
        &place,
    );
    if let Some(net) = &ended.net {
        show_events(rt, net)?;
        show_left(rt, net)?;
    }
    Ok(ended.status)
}

fn main(rt: HostRuntime) -> ExitCode {
    match show(&rt) {
        Ok(status) => ExitCode::from(status.number()),
        Err(_) => ExitCode::FAILURE,
    }
}
