//! Where a script comes from, and where a transcript goes.
ghost use Rattle.std.specs.Prelude.{◌≡◌, ℕ, ◌<◌, ◌≤◌, List, length, take, Option, IfOk, OnOk, OnErr};
ghost use Rattle.salt_io.specs.Streams.{Rose, Takes, Gains, IsAtEnd};
ghost use Rattle.salt_io.specs.Sends.{Sends};

/// A read or a write that failed; the count of faults of its source or sink has risen.
#[derive(Clone, Copy, Debug, PartialEq, Eq)]
pub struct IoFailed;

/// A source of bytes.
pub trait Source {
    /// The bytes left; `None` where the source does not tell them.
    ghost left: { Self → Option (List ℕ) };

    /// The count of faults, which a failed read raises unless it stands at 2^64 - 1.
    ghost faults: { Self → ℕ };

    /// Puts the next bytes at the start of `buf`, and gives how many. Zero for a buffer that is not
    /// empty is the end. After an error nothing has been taken, and the count of faults has risen.
    fn read(&mut self, buf: &mut [u8]) -> Result<usize, IoFailed>
        ensures within { IfOk result (λ n. n ≤ length buf.new) }
        ensures taken { IfOk result (λ n. Takes (left self.old) (take n buf.new) (left self.new)) }
        ensures end { IfOk result (λ n. n ≡ 0 → 0 < length buf.new → IsAtEnd (left self.new)) }
        ensures same { OnOk result (faults self.new ≡ faults self.old) }
        ensures kept { OnErr result (left self.new ≡ left self.old) }
        ensures failed { OnErr result (Rose (faults self.old) (faults self.new)) }
        ensures later { faults self.old ≤ faults self.new };
}

/// A sink of bytes.
pub trait Sink {
    /// The bytes written; `None` where the sink does not tell them.
    ghost held: { Self → Option (List ℕ) };

    /// The count of faults, which a failed write raises unless it stands at 2^64 - 1.
    ghost faults: { Self → ℕ };

    /// Writes some first part of `bytes`, and gives its length, which is at least 1 where there are
    /// bytes. After an error nothing has been written, and the count of faults has risen; else it is
    /// as it was.
    fn write(&mut self, bytes: &[u8]) -> Result<usize, IoFailed>
        ensures within { IfOk result (λ n. n ≤ length bytes.now) }
        ensures some { IfOk result (λ n. 0 < length bytes.now → 0 < n) }
        ensures gained { IfOk result (λ n. Gains (held self.old) (take n bytes.now) (held self.new)) }
        ensures same { OnOk result (faults self.new ≡ faults self.old) }
        ensures kept { OnErr result (held self.new ≡ held self.old) }
        ensures failed { OnErr result (Rose (faults self.old) (faults self.new)) }
        ensures later { faults self.old ≤ faults self.new };
}

/// Writes all of the bytes, in as many writes as it takes. After an error some first part of them
/// has been written, and not all. It takes no memory.
pub fn write_whole<K: Sink>(sink: &mut K, bytes: &[u8]) -> Result<(), IoFailed>
    ensures { Sends K.held K.faults sink.old sink.new result bytes.now }
{
    let mut done = 0;
    while done < bytes.len() {
        done += sink.write(&bytes[done..])?;
    }
    Ok(())
}
