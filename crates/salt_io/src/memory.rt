//! Sources and sinks in memory.
ghost use Rattle.std.specs.Prelude.{◌≡◌, ◌<◌, ◌≤◌, ◌-◌, ◌^◌, [], length, take, is_ok, IfOk, OnOk, OnErr, Some};
ghost use Rattle.salt_io.specs.Calls.{succeeds, with_failing};
ghost use Rattle.salt_io.specs.Streams.{Rose, Takes, Gains, IsAtEnd};
ghost use Rattle.salt_io.specs.MemStreams.{bytes_given, after_read, takes_write, after_write};

use crate::calls::Calls;
use crate::{IoFailed, Sink, Source};
use std::alloc::{AllocError, Global};
use std::marker::Model;

/// A source of bytes in memory, some of whose reads can be made to fail. It tells its bytes.
#[derive(Debug, Drop)]
pub struct MemSource {
    bytes: Vec<u8>,
    at: usize,
    most: usize,
    calls: Calls,
}

impl Model for MemSource {
    ghost use Rattle.std.specs.Prelude.{◌<◌, ◌≤◌, drop, length};
    ghost use Rattle.salt_io.specs.MemStreams.{SourceState};

    ghost Value = { SourceState };

    ghost view = { λ s. record { left = drop s.at s.bytes.items; most = s.most; calls = s.calls } };

    ghost invariant = { λ s. (s.at ≤ length s.bytes.items) × (0 < s.most) };
}

impl MemSource {
    /// A source of these bytes, none of whose reads are to fail.
    pub fn new(alloc: Global, bytes: &[u8]) -> Result<Self, AllocError>
        ensures { IfOk result (λ source. source ≡ record {
          left = bytes.now;
          most = 2 ^ 64 - 1;
          calls = record { made = 0; failing = []; faults = 0 };
        }) }
    {
        Ok(MemSource {
            bytes: Vec::from_slice(alloc, bytes)?,
            at: 0,
            most: usize::MAX,
            calls: Calls::new(alloc),
        })
    }

    /// The read of this number, from 1, is to fail.
    pub fn fail_call(&mut self, call: u64) -> Result<(), AllocError>
        ensures ok { OnOk result (self.new ≡ record self.old { calls = with_failing self.old.calls call }) }
        ensures err { OnErr result (self.new ≡ self.old) }
    {
        self.calls.fail(call)
    }

    /// Each read from now on gives at most this many bytes.
    pub fn give_at_most(&mut self, most: usize)
        requires { 0 < most }
        ensures { self.new ≡ record self.old { most = most } }
    {
        self.most = most;
    }
}

impl Source for MemSource {
    ghost left = { λ source. Some source.left };

    ghost faults = { λ source. source.calls.faults };

    fn read(&mut self, buf: &mut [u8]) -> Result<usize, IoFailed>
        ensures answer { is_ok result ≡ succeeds self.old.calls }
        ensures given { IfOk result (λ n. take n buf.new ≡ bytes_given self.old (length buf.old)) }
        ensures count { IfOk result (λ n. n ≡ length (bytes_given self.old (length buf.old))) }
        ensures after { self.new ≡ after_read self.old (length buf.old) }

        ensures within { IfOk result (λ n. n ≤ length buf.new) }
        ensures taken { IfOk result (λ n. Takes (Some self.old.left) (take n buf.new) (Some self.new.left)) }
        ensures end { IfOk result (λ n. n ≡ 0 → 0 < length buf.new → IsAtEnd (Some self.new.left)) }
        ensures same { OnOk result (self.new.calls.faults ≡ self.old.calls.faults) }
        ensures kept { OnErr result (self.new.left ≡ self.old.left) }
        ensures failed { OnErr result (Rose self.old.calls.faults self.new.calls.faults) }
        ensures later { self.old.calls.faults ≤ self.new.calls.faults }
    {
        self.calls.count(true)?;
        let left = &self.bytes[self.at..];
        let n = left.len().min(buf.len()).min(self.most);
        buf[..n].copy_from_slice(&left[..n]);
        self.at += n;
        Ok(n)
    }
}

/// A sink in memory, with a bound on its bytes, some of whose writes can be made to fail. It tells
/// its bytes.
#[derive(Debug, Drop)]
pub struct MemSink {
    bytes: Vec<u8>,
    end: usize,
    calls: Calls,
}

impl Model for MemSink {
    ghost use Rattle.std.specs.Prelude.{◌≤◌, take, length};
    ghost use Rattle.salt_io.specs.MemStreams.{SinkState};

    ghost Value = { SinkState };

    ghost view = { λ s. record { held = take s.end s.bytes.items; room = length s.bytes.items; calls = s.calls } };

    ghost invariant = { λ s. s.end ≤ length s.bytes.items };
}

impl MemSink {
    /// A sink that can hold so many bytes, none of whose writes are to fail. No write takes memory.
    pub fn new(alloc: Global, room: usize) -> Result<Self, AllocError>
        ensures { IfOk result (λ sink. sink ≡ record {
          held = [];
          room = room;
          calls = record { made = 0; failing = []; faults = 0 };
        }) }
    {
        Ok(MemSink {
            bytes: vec![in alloc; 0; room]?,
            end: 0,
            calls: Calls::new(alloc),
        })
    }

    /// The write of this number, from 1, is to fail.
    pub fn fail_call(&mut self, call: u64) -> Result<(), AllocError>
        ensures ok { OnOk result (self.new ≡ record self.old { calls = with_failing self.old.calls call }) }
        ensures err { OnErr result (self.new ≡ self.old) }
    {
        self.calls.fail(call)
    }

    /// What was written.
    pub fn bytes(&self) -> &[u8]
        ensures { result.now ≡ self.now.held }
    {
        &self.bytes[..self.end]
    }
}

impl Sink for MemSink {
    ghost held = { λ sink. Some sink.held };

    ghost faults = { λ sink. sink.calls.faults };

    /// Writes all of `bytes`, or fails where they do not fit.
    fn write(&mut self, bytes: &[u8]) -> Result<usize, IoFailed>
        ensures answer { is_ok result ≡ takes_write self.old bytes.now }
        ensures all { IfOk result (λ n. n ≡ length bytes.now) }
        ensures after { self.new ≡ after_write self.old bytes.now }

        ensures within { IfOk result (λ n. n ≤ length bytes.now) }
        ensures some { IfOk result (λ n. 0 < length bytes.now → 0 < n) }
        ensures gained { IfOk result (λ n. Gains (Some self.old.held) (take n bytes.now) (Some self.new.held)) }
        ensures same { OnOk result (self.new.calls.faults ≡ self.old.calls.faults) }
        ensures kept { OnErr result (self.new.held ≡ self.old.held) }
        ensures failed { OnErr result (Rose self.old.calls.faults self.new.calls.faults) }
        ensures later { self.old.calls.faults ≤ self.new.calls.faults }
    {
        let fits = bytes.len() <= self.bytes.len() - self.end;
        self.calls.count(fits)?;
        self.bytes[self.end..self.end + bytes.len()].copy_from_slice(bytes);
        self.end += bytes.len();
        Ok(bytes.len())
    }
}
