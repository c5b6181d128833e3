//! Calls that a signal interrupts are made again, and a flush that fails is a fault.

use std::io::{self, ErrorKind};
use std::test::Fail;
use td_out::{Failed, Sink, Source, StdSink, StdSource};

/// A reader and writer of one byte, whose first calls are interrupted, and whose flush may fail.
#[derive(Drop)]
struct Unsteady {
    reads: u32,
    writes: u32,
    flushes: u32,
    flush_fails: bool,
}

/// Of so many calls before, an interruption of the first, and of no other.
fn interrupts_first(calls: &mut u32) -> io::Result<()> {
    *calls = calls.saturating_add(1);
    if *calls == 1 {
        return Err(io::Error::from(ErrorKind::Interrupted));
    }
    Ok(())
}

impl io::Read for Unsteady {
    fn read(&mut self, buf: &mut [u8]) -> io::Result<usize> {
        interrupts_first(&mut self.reads)?;
        match buf.first_mut() {
            Some(byte) => {
                *byte = 7;
                Ok(1)
            }
            None => Ok(0),
        }
    }
}

impl io::Write for Unsteady {
    fn write(&mut self, buf: &[u8]) -> io::Result<usize> {
        interrupts_first(&mut self.writes)?;
        Ok(buf.len().min(1))
    }

    fn flush(&mut self) -> io::Result<()> {
        interrupts_first(&mut self.flushes)?;
        if self.flush_fails {
            return Err(io::Error::other("broken"));
        }
        Ok(())
    }
}

fn make_unsteady(flush_fails: bool) -> Unsteady {
    Unsteady {
        reads: 0,
        writes: 0,
        flushes: 0,
        flush_fails,
    }
}

#[test]
fn an_interrupted_read_is_tried_again(rt: HostRuntime) {
    let mut reader = make_unsteady(false);
    let mut source = StdSource::new(&mut reader);
    let mut bytes = [0; 4];
    assert_eq!(rt; source.read(&mut bytes), Ok(1));
    assert_eq!(rt; bytes, [7, 0, 0, 0]);
    assert_eq!(rt; reader.reads, 2);
}

#[test]
fn an_interrupted_write_and_flush_are_tried_again(rt: HostRuntime) {
    let mut writer = make_unsteady(false);
    let mut sink = StdSink::new(&mut writer);
    assert_eq!(rt; sink.write(&[1, 2]), Ok(1));
    assert_eq!(rt; (writer.writes, writer.flushes), (2, 2));
}

#[test]
fn a_flush_that_fails_is_a_fault(rt: HostRuntime) {
    let mut sink = StdSink::new(make_unsteady(true));
    assert_eq!(rt; sink.write(&[1, 2]), Err(Failed));
}
