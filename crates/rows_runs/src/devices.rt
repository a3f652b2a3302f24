//! Devices in memory, as many as a run has.

use crate::outcome::Outcome;
use salt_disk::{Disks, MemDisks};
use salt_io::{MemSink, MemSource};
use salt_place::{PlaceKind, Placement, place_of};
use salt_run::run;
use salt_values::Key;
use std::alloc::{AllocError, Global};
use std::marker::Model;

/// How many devices a run has.
pub const DEVICES: u32 = 26;

const LIMIT: u64 = 67_108_864;

/// The most bytes of a story of a table. A sink writes as many when it is made, so there are no more than are needed.
pub const ROOM: usize = 8_192;

/// Which calls fail: a write or sync, a read, or each write and sync from one on.
#[derive(Clone, Copy)]
pub enum Failing {
    Write(u64),
    Read(u64),
    From(u64),
}

/// So many devices. A value of its own, since each step of a proof about a caller would write out all of `MemDisks`.
pub struct Devices {
    disks: MemDisks,
}

impl Drop for Devices {
    fn drop(self) {
        let Devices { disks: _disks } = self;
    }
}

impl Model for Devices {
    ghost use Rattle.salt_disk.specs.MemDisks.{seen};
    ghost use Rattle.std.specs.Prelude.{ℕ, ◌≡◌};

    ghost Value = { ℕ };

    ghost view = { λ d. (seen d.disks).count };

    ghost invariant = { λ d. (seen d.disks).count ≡ 26 };
}

fn strings(alloc: Global, words: &[&str]) -> Result<Vec<String>, AllocError> {
    let mut strings = Vec::new(alloc);
    for word in words {
        strings.push(String::from_str(alloc, word)?)?;
    }
    Ok(strings)
}

impl Devices {
    ghost use Rattle.salt_place.specs.Placement.{IsParts, place_of};
    ghost use Rattle.std.specs.Prelude.{◌<◌, ◌≡◌, ◌≤◌};

    /// New ones.
    pub fn new(alloc: Global) -> Result<Devices, AllocError> {
        let disks = MemDisks::new(alloc, DEVICES, LIMIT)?;
        Ok(Devices { disks })
    }

    /// The bytes of one of them.
    pub fn bytes(&self, dev: u32) -> &[u8]
        requires { dev < 26 }
    {
        self.disks.bytes(dev)
    }

    /// One of them holds these bytes.
    pub fn set_bytes(&mut self, dev: u32, bytes: &[u8]) -> Result<(), AllocError>
        requires { dev < 26 }
    {
        self.disks.set_bytes(dev, bytes)
    }

    /// One of them has room for so many bytes.
    pub fn limit(&mut self, dev: u32, limit: u64)
        requires { dev < 26 }
    {
        self.disks.set_limit(dev, limit);
    }

    /// A stop is to come.
    pub fn arm(&mut self, call: u64, pick: u8) -> Result<(), AllocError>
        requires { pick ≤ 4 }
    {
        self.disks.arm(call, pick)
    }

    /// Calls fail.
    pub fn fail(&mut self, failing: Failing) -> Result<(), AllocError> {
        match failing {
            Failing::Write(call) => self.disks.fail_write(call),
            Failing::Read(call) => self.disks.fail_read(call),
            Failing::From(call) => {
                self.disks.fail_from(call);
                Ok(())
            }
        }
    }

    /// These writes and syncs fail.
    pub fn fail_writes(&mut self, calls: &[u64]) -> Result<(), AllocError> {
        for call in calls {
            self.fail(Failing::Write(*call))?;
        }
        Ok(())
    }

    /// Others with the same bytes, on which no call fails.
    pub fn copied(&self, alloc: Global) -> Result<Devices, AllocError> {
        let mut copies = Devices::new(alloc)?;
        for dev in 0..DEVICES {
            copies.set_bytes(dev, self.bytes(dev))?;
        }
        Ok(copies)
    }

    /// Whether others hold the same bytes.
    pub fn are_as(&self, others: &Devices) -> bool {
        for dev in 0..DEVICES {
            if self.bytes(dev) != others.bytes(dev) {
                return false;
            }
        }
        true
    }

    /// Runs what the words say over these streams, where the devices are started again before.
    pub fn run_between(
        &mut self,
        alloc: Global,
        words: &[&str],
        source: &mut MemSource,
        sink: &mut MemSink,
    ) -> Result<Outcome, AllocError> {
        let words = strings(alloc, words)?;
        let place = Placement::new(
            |kind: PlaceKind, key: &Key, parts: u32| -> u32
                requires { IsParts parts }
                ensures { result ≡ place_of kind key.now parts }
            { place_of(kind, key, parts) },
        );
        self.disks.restart();
        let ended = run(
            alloc,
            words.as_slice(),
            source,
            sink,
            &mut self.disks,
            &place,
        );
        Outcome::of(alloc, ended, sink.bytes())
    }

    /// Runs a script by these words, where the devices are started again before. Its story has room for so many bytes.
    pub fn run_within(
        &mut self,
        alloc: Global,
        room: usize,
        words: &[&str],
        script: &[u8],
    ) -> Result<Outcome, AllocError> {
        let mut source = MemSource::new(alloc, script)?;
        let mut sink = MemSink::new(alloc, room)?;
        self.run_between(alloc, words, &mut source, &mut sink)
    }

    /// Runs a script, where the devices are started again before.
    pub fn run(&mut self, alloc: Global, script: &[u8]) -> Result<Outcome, AllocError> {
        self.run_within(alloc, ROOM, &["run"], script)
    }
}

/// Runs a script over new devices.
pub fn told_of(alloc: Global, script: &[u8]) -> Result<Outcome, AllocError> {
    let mut devices = Devices::new(alloc)?;
    devices.run(alloc, script)
}
