//! Readers and writers that are interrupted, or take few bytes.

use salt_io::{IoFailed, Sink, Source, StdSink, StdSource};
use std::io::{Error, ErrorKind, Read, Write};
use std::test::Fail;

// A reader and writer that is interrupted so many times before each call, and takes or gives at
// most so many bytes.
#[derive(Drop)]
struct Interrupted {
    times: u32,
    left: u32,
    most: usize,
    flushes: u32,
}

impl Interrupted {
    fn new(times: u32, most: usize) -> Self {
        Interrupted {
            times,
            left: times,
            most,
            flushes: 0,
        }
    }

    fn turn(&mut self) -> Result<(), Error> {
        if self.left > 0 {
            self.left -= 1;
            return Err(Error::from(ErrorKind::Interrupted));
        }
        self.left = self.times;
        Ok(())
    }
}

impl Read for Interrupted {
    fn read(&mut self, buf: &mut [u8]) -> Result<usize, Error> {
        self.turn()?;
        Ok(buf.len().min(self.most))
    }
}

impl Write for Interrupted {
    fn write(&mut self, buf: &[u8]) -> Result<usize, Error> {
        self.turn()?;
        Ok(buf.len().min(self.most))
    }

    fn flush(&mut self) -> Result<(), Error> {
        self.turn()?;
        self.flushes = self.flushes.saturating_add(1);
        Ok(())
    }
}

#[test]
fn calls_that_are_interrupted(rt: HostRuntime) -> Result<(), Fail> {
    for (times, most, read, written, flushes) in [
        (0, 2, true, true, 1),
        (16, 2, true, true, 1),
        (17, 2, false, false, 0),
        (0, 0, true, false, 0),
    ] {
        let mut fake = Interrupted::new(times, most);
        let answer = StdSource::new(&mut fake).read(&mut [0; 3]);
        assert_eq!(rt; answer, if read { Ok(most) } else { Err(IoFailed) });
        let mut fake = Interrupted::new(times, most);
        let answer = StdSink::new(&mut fake).write(b"abc");
        assert_eq!(rt; answer, if written { Ok(most) } else { Err(IoFailed) });
        assert_eq!(rt; fake.flushes, flushes);
    }
    Ok(())
}
