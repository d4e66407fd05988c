//! What no clause says: std's readers and writers behind the adapters, and each call that takes memory with ample memory.

use il_edge::{
    MemSink, MemSource, ReadEnd, Sink, StdSink, StdSource, SureSink, SureSource, read_all,
    write_all,
};
use std::io::{self, ErrorKind, Read, Write};
use std::test::Fail;

/// A reader that gives one byte a read, without end, and fails once it has given `good` of them.
#[derive(Drop)]
struct Drip {
    good: u32,
}

impl Read for Drip {
    fn read(&mut self, buf: &mut [u8]) -> io::Result<usize> {
        if self.good == 0 {
            return Err(io::Error::from(ErrorKind::Other));
        }
        self.good -= 1;
        if buf.is_empty() {
            return Ok(0);
        }
        buf[0] = b'x';
        Ok(1)
    }
}

/// A writer that takes all and whose flush fails.
#[derive(Drop)]
struct Unsettled;

impl Write for Unsettled {
    fn write(&mut self, buf: &[u8]) -> io::Result<usize> {
        Ok(buf.len())
    }

    fn flush(&mut self) -> io::Result<()> {
        Err(io::Error::from(ErrorKind::Other))
    }
}

#[test]
fn adapters_move_texts_within_the_limit(rt: HostRuntime) -> Result<(), Fail> {
    let long = [b'a'; 5000];
    let cases = [
        (b"".as_slice(), 0, true),
        (b"nine line", 9, true),
        (b"nine line", 8, false),
        (long.as_slice(), 5000, true),
        (long.as_slice(), 4999, false),
    ];
    for (text, limit, fits) in cases {
        let read = read_all(rt.alloc(), &mut StdSource::new(text), limit);
        match read {
            Ok(bytes) => {
                assert!(rt; fits);
                assert_eq!(rt; bytes.as_slice(), text);
            }
            Err(end) => {
                assert!(rt; !fits);
                assert_eq!(rt; end, ReadEnd::TooLong);
            }
        }
        let mut held = Vec::new(rt.alloc());
        let mut sink = StdSink::new(&mut held);
        assert!(rt; write_all(&mut sink, text).is_ok());
        assert!(rt; sink.flush().is_ok());
        assert_eq!(rt; held.as_slice(), text);
    }
    Ok(())
}

#[test]
fn adapters_tell_faults(rt: HostRuntime) {
    for (good, end) in [
        (0, ReadEnd::Fault),
        (9, ReadEnd::Fault),
        (10, ReadEnd::TooLong),
    ] {
        let read = read_all(rt.alloc(), &mut StdSource::new(Drip { good }), 9);
        assert_eq!(rt; read.err(), Some(end), "after {good} good reads");
    }
    let mut row = [0u8; 3];
    assert!(rt; write_all(&mut StdSink::new(row.as_mut_slice()), b"four").is_err());
    assert_eq!(rt; row.as_slice(), b"fou".as_slice());
    let mut sink = StdSink::new(Unsettled);
    assert!(rt; write_all(&mut sink, b"four").is_ok());
    assert!(rt; sink.flush().is_err());
}

#[test]
fn memory_suffices(rt: HostRuntime) -> Result<(), Fail> {
    let text = b"a straight text".as_slice();
    let mut sure = SureSource::new(rt.alloc(), text)?;
    let read = read_all(rt.alloc(), &mut sure, 15)?;
    let mut numbered = MemSource::new(rt.alloc(), read.as_slice(), 4, &[7])?;
    let read = read_all(rt.alloc(), &mut numbered, 15)?;
    let mut sink = SureSink::new(rt.alloc(), 16)?;
    write_all(&mut sink, read.as_slice())?;
    assert_eq!(rt; sink.held(), text);
    assert_eq!(rt; sink.room(), 1);
    let mut short = MemSink::new(rt.alloc(), 4, 64, &[3])?;
    assert!(rt; write_all(&mut short, read.as_slice()).is_err());
    assert_eq!(rt; short.held(), b"a straig".as_slice());
    Ok(())
}
