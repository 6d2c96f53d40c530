//! The source and the sinks of the system: what they pass on, where no clause says it.
use dwc_cli::{Failed, HostSink, HostSource, Sink, Source};
use std::io;
use std::io::Write;

// A stream that takes one byte of each piece, as long as it is the next one that is wanted, and then none.
#[derive(Drop)]
struct Narrow {
    wanted: &'static [u8],
}

impl Write for Narrow {
    fn write(&mut self, buf: &[u8]) -> io::Result<usize> {
        let (Some(wanted), Some(found)) = (self.wanted.first(), buf.first()) else {
            return Ok(0);
        };
        if wanted != found {
            return Err(io::Error::from(io::ErrorKind::InvalidInput));
        }
        self.wanted = &self.wanted[1..];
        Ok(1)
    }

    fn flush(&mut self) -> io::Result<()> {
        Ok(())
    }
}

// Each write answers what the stream took of it, and fails where that is nothing.
#[test]
fn a_stream_that_takes_a_byte_or_none(rt: HostRuntime) {
    let mut sink = HostSink::new(Narrow { wanted: b"ab" });
    assert_eq!(rt; sink.write(b"abc"), Ok(1));
    assert_eq!(rt; sink.write(b""), Ok(0));
    assert_eq!(rt; sink.write(b"bc"), Ok(1));
    assert_eq!(rt; sink.write(b"c"), Err(Failed));
    let mut sink = HostSink::new(Narrow { wanted: b"ab" });
    assert_eq!(rt; sink.write(b"b"), Err(Failed));
    assert_eq!(rt; sink.write(b"a"), Ok(1));
}

// An opening takes the place of the file before, a file stays open at its end, and a failed opening leaves none open.
#[test]
fn files_of_the_system(rt: HostRuntime) {
    let mut source = HostSource::new(&rt);
    let mut buffer = [1; 3];
    assert_eq!(rt; source.read(&mut buffer), Err(Failed), "no file is open");
    assert_eq!(rt; source.open_file("/dev/zero"), Ok(()));
    assert_eq!(rt; source.read(&mut buffer), Ok(3));
    assert_eq!(rt; buffer, [0, 0, 0]);
    assert_eq!(rt; source.open_file("/dev/null"), Ok(()));
    assert_eq!(rt; source.read(&mut buffer), Ok(0), "the file is empty");
    assert_eq!(rt; source.read(&mut buffer), Ok(0), "it is open at its end");
    assert_eq!(rt; source.open_file("/dev/zero"), Ok(()));
    assert_eq!(rt; source.open_file("/dev/null/none"), Err(Failed));
    assert_eq!(rt; source.read(&mut buffer), Err(Failed), "no file is open");
}
