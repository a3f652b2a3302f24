//! Bytes that are collected before they are written.
ghost use Rattle.std.specs.Prelude.{◌≡◌, ◌<◌, ◌≤◌, ◌+◌, ◌++◌, [], length, take, OnOk};
ghost use Rattle.salt_io.specs.Collects.{Collects};
ghost use Rattle.salt_io.specs.Sends.{Sends};
ghost use Rattle.salt_io.specs.declared.buffer.TheConstants.{ROOM};

use crate::{IoFailed, Sink, write_whole};
use std::marker::Model;

/// How many bytes are collected at most before they are written. A buffer is made, and filled with zeros, for each line that tells
/// something, so it is no wider than most lines need.
const ROOM: usize = 1024;

/// Bytes that wait to be written to a sink, in an array of their own: no call takes memory. Contracts see these bytes. Each call is
/// given the sink, which is the one of the calls before while bytes wait.
#[derive(Drop)]
pub struct WriteBuffer {
    bytes: [u8; ROOM],
    end: usize,
}

impl Model for WriteBuffer {
    ghost use Rattle.std.specs.Prelude.{List, ℕ, ◌≤◌, take};
    ghost use Rattle.salt_io.specs.declared.buffer.TheConstants.{ROOM};

    ghost Value = { List ℕ };

    ghost view = { λ b. take b.end b.bytes };

    ghost invariant = { λ b. b.end ≤ ROOM };
}

impl WriteBuffer {
    /// No byte waits.
    pub fn new() -> Self
        ensures { result ≡ [] }
    {
        WriteBuffer {
            bytes: [0; ROOM],
            end: 0,
        }
    }

    /// Puts the first bytes behind those that wait, as many as there is room for, and gives their number.
    fn keep(&mut self, bytes: &[u8]) -> usize
        requires { length self.old < ROOM }
        ensures within { result ≤ length bytes.now }
        ensures some { 0 < length bytes.now → 0 < result }
        ensures kept { self.new ≡ self.old ++ take result bytes.now }
        ensures all { length self.old + length bytes.now < ROOM → result ≡ length bytes.now }
    {
        let n = bytes.len().min(ROOM - self.end);
        self.bytes[self.end..self.end + n].copy_from_slice(&bytes[..n]);
        self.end += n;
        n
    }

    /// Writes the bytes that wait. `IoFailed` where a write failed: the sink has counted the fault, and has some first part of them,
    /// and not all.
    pub fn flush<K: Sink>(&mut self, sink: &mut K) -> Result<(), IoFailed>
        ensures sends { Sends K.held K.faults sink.old sink.new result self.old }
        ensures empty { OnOk result (self.new ≡ []) }
    {
        write_whole(sink, &self.bytes[..self.end])?;
        self.end = 0;
        Ok(())
    }

    /// Writes the bytes that wait where there is no room for another.
    fn make_room<K: Sink>(&mut self, sink: &mut K) -> Result<(), IoFailed>
        ensures collects { Collects K.held K.faults sink.old self.old sink.new self.new result [] }
        ensures room { OnOk result (length self.new < ROOM) }
    {
        if self.end == ROOM {
            self.flush(sink)?;
        }
        Ok(())
    }

    /// Puts the bytes behind those that wait, a piece at a time, and writes what waits each time that there is no more room. `IoFailed`
    /// as for `put`.
    fn put_in_pieces<K: Sink>(&mut self, sink: &mut K, bytes: &[u8]) -> Result<(), IoFailed>
        ensures { Collects K.held K.faults sink.old self.old sink.new self.new result bytes.now }
    {
        let mut done = 0;
        while done < bytes.len() {
            self.make_room(sink)?;
            done += self.keep(&bytes[done..]);
        }
        Ok(())
    }

    /// Puts the bytes behind those that wait, and writes what waits each time that there is no more room. `IoFailed` where a write
    /// failed: the sink has counted the fault, and has some first part of what waited and of these bytes, and not all.
    pub fn put<K: Sink>(&mut self, sink: &mut K, bytes: &[u8]) -> Result<(), IoFailed>
        ensures { Collects K.held K.faults sink.old self.old sink.new self.new result bytes.now }
    {
        if bytes.len() < ROOM - self.end {
            self.keep(bytes);
            return Ok(());
        }
        self.put_in_pieces(sink, bytes)
    }
}
