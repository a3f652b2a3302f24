//! How the texts of events are written: to sinks that take few bytes at a time, and to sinks that fail.

ghost use Rattle.std.specs.Prelude.{Some};

use salt_io::{IoFailed, Sink};
use salt_model::{Event, Story};
use salt_print::{print, print_story};
use salt_schema::Schema;
use sqlite_items::Items;
use std::alloc::{AllocError, Global};
use std::test::Fail;

/// A sink that takes so many bytes at a time, as many as it has room for, and then fails. It counts its writes.
#[derive(Drop)]
struct Narrow {
    bytes: Vec<u8>,
    most: usize,
    room: usize,
    writes: usize,
    faults: u64,
}

impl Narrow {
    fn new(alloc: Global, most: usize, room: usize) -> Narrow {
        Narrow {
            bytes: Vec::new(alloc),
            most,
            room,
            writes: 0,
            faults: 0,
        }
    }
}

impl Sink for Narrow {
    ghost held = { λ sink. Some sink.bytes.items };

    ghost faults = { λ sink. sink.faults };

    fn write(&mut self, bytes: &[u8]) -> Result<usize, IoFailed> {
        let left = self.room.saturating_sub(self.bytes.len());
        let taken = bytes.len().min(self.most).min(left);
        let is_stuck = taken == 0 && !bytes.is_empty();
        if is_stuck || self.bytes.extend_from_slice(&bytes[..taken]).is_err() {
            self.faults = self.faults.saturating_add(1);
            return Err(IoFailed);
        }
        self.writes = self.writes.saturating_add(1);
        Ok(taken)
    }
}

/// Two definitions whose texts have so many bytes.
fn story(alloc: Global, length: usize) -> Result<Story, AllocError> {
    let mut events = Story::new(alloc);
    for number in 1..3 {
        let text = Items::from_vec(vec![in alloc; b'x'; length]?);
        events.push(Event::Defined { number, text })?;
    }
    Ok(events)
}

// Whatever the byte at which a sink fails, those before it stand there, and one fault is counted.
#[test]
fn a_write_that_fails(rt: HostRuntime) -> Result<(), Fail> {
    let alloc = rt.alloc();
    let events = story(alloc, 4)?;
    let said = b"defined 1 xxxx\ndefined 2 xxxx\n";
    for room in 0..=said.len() {
        let mut sink = Narrow::new(alloc, 1 + room % 7, room);
        let printed = print_story(&mut sink, events.as_slice(), &Schema::new(alloc));
        let fails = room < said.len();
        assert_eq!(rt; printed.is_err(), fails);
        assert_eq!(rt; sink.bytes.as_slice(), &said[..room]);
        assert_eq!(rt; sink.faults, u64::from(fails));
    }
    Ok(())
}

/// How many writes the events take that are printed all at once, and then once more one after another.
fn writes_of(alloc: Global, length: usize) -> Result<usize, Fail> {
    let events = story(alloc, length)?;
    let tables = Schema::new(alloc);
    let mut sink = Narrow::new(alloc, usize::MAX, usize::MAX);
    print_story(&mut sink, events.as_slice(), &tables)?;
    for event in events.as_slice() {
        print(&mut sink, event, &tables)?;
    }
    Ok(sink.writes)
}

// One write for each 1,024 bytes of what is printed by one call.
#[test]
fn writes_of_events(rt: HostRuntime) -> Result<(), Fail> {
    for (length, writes) in [
        (501, 3),
        (502, 4),
        (1013, 4),
        (1014, 7),
        (3061, 12),
        (3062, 15),
    ] {
        assert_eq!(rt; writes_of(rt.alloc(), length)?, writes);
    }
    Ok(())
}
