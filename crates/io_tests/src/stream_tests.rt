ghost use Rattle.std.specs.Prelude.{◌≤◌, IfOk};

use ld_io::*;
use std::io;
use std::io::{ErrorKind, Read, Write};

/// A stream that answers in turn: an interrupted call, bytes, none, an error.
#[derive(Drop)]
struct Fake {
    calls: u8,
}

impl Fake {
    fn answer(&mut self, len: usize) -> io::Result<usize>
        ensures { IfOk result (λ n. n ≤ len) }
    {
        self.calls = self.calls.saturating_add(1);
        match self.calls {
            1 => Err(io::Error::from(ErrorKind::Interrupted)),
            2 => Ok(len.min(2)),
            3 => Ok(0),
            _ => Err(io::Error::from(ErrorKind::BrokenPipe)),
        }
    }
}

impl Read for Fake {
    fn read(&mut self, buf: &mut [u8]) -> io::Result<usize> {
        self.answer(buf.len())
    }
}

impl Write for Fake {
    fn write(&mut self, buf: &[u8]) -> io::Result<usize> {
        self.answer(buf.len())
    }

    fn flush(&mut self) -> io::Result<()> {
        self.answer(0)?;
        Ok(())
    }
}

#[test]
fn a_real_reader_is_read_again_where_it_was_interrupted(rt: HostRuntime) {
    let mut source = StdSource::new(Fake { calls: 0 });
    let mut buf = [0u8; 8];
    for answer in &[Ok(2), Ok(0), Err(Failed)] {
        assert!(rt; source.read(&mut buf) == *answer);
    }
}

#[test]
fn a_real_writer_that_takes_nothing_or_breaks_is_a_fault(rt: HostRuntime) {
    let mut sink = StdSink::new(Fake { calls: 0 });
    assert!(rt; sink.write(b"abc") == Ok(2));
    assert!(rt; sink.write(b"c") == Err(Failed));
    assert!(rt; sink.finish() == Err(Failed));
}
