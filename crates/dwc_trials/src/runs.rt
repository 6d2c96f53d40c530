//! Runs over sources and sinks that fail or have no room, each with its line, and over the plain ones.
use crate::module_file::{MAP, SMALL};
use dwc_cli::{LongSource, MemSink, MemSource, PlainSink, PlainSource, Sink, Source, Status, run};
use std::alloc::{AllocError, Global};
use std::test::Fail;

fn words(alloc: Global, list: &[&str]) -> Result<Vec<String>, AllocError> {
    let mut words = Vec::new(alloc);
    for word in list {
        words.push(String::from_str(alloc, word)?)?;
    }
    Ok(words)
}

fn files(alloc: Global, list: &[(&str, &[u8])]) -> Result<Vec<(String, Vec<u8>)>, AllocError> {
    let mut files = Vec::new(alloc);
    for (path, bytes) in list {
        files.push((String::from_str(alloc, path)?, bytes.to_vec(alloc)?))?;
    }
    Ok(files)
}

fn source(alloc: Global, list: &[(&str, &[u8])], failing: &[u64]) -> Result<MemSource, AllocError> {
    Ok(MemSource::new(files(alloc, list)?, failing.to_vec(alloc)?))
}

fn sink(alloc: Global, room: usize, most: usize, failing: &[u64]) -> Result<MemSink, AllocError> {
    MemSink::new(alloc, room, most, failing.to_vec(alloc)?)
}

// The status of a run.
fn status<S: Source, K: Sink, E: Sink>(
    alloc: Global,
    list: &[&str],
    source: &mut S,
    out: &mut K,
    err: &mut E,
) -> Result<u8, AllocError> {
    let words = words(alloc, list)?;
    Ok(run(alloc, &words, source, out, err))
}

// The files of runs: the map, the module, and one that is cut.
const FILES: [(&str, &[u8]); 3] = [
    ("g.json", MAP),
    ("g.wasm", SMALL),
    ("cut.wasm", b"\x00asm\x01\x00\x00\x00\x01"),
];

const TWO: &[&str] = &["g.json", "g.wasm"];

const THREE: &[&str] = &["g.json", "g.wasm", "cut.wasm"];

// The words, the call of the source that fails, the room of the sink, and how a run then ends: its status, its text and its line.
// A sink that is full takes a front of the text.
const ENDINGS: [(&[&str], u64, usize, u8, &str, &str); 15] = [
    (TWO, 1, 99, 3, "", "dwarfcarry: read fault g.json\n"),
    (TWO, 2, 99, 3, "", "dwarfcarry: read fault g.json\n"),
    (TWO, 3, 99, 3, "", "dwarfcarry: read fault g.json\n"),
    (TWO, 4, 99, 3, "", "dwarfcarry: read fault g.wasm\n"),
    (TWO, 5, 99, 3, "", "dwarfcarry: read fault g.wasm\n"),
    (TWO, 6, 99, 3, "", "dwarfcarry: read fault g.wasm\n"),
    (THREE, 1, 99, 3, "", "dwarfcarry: read fault g.json\n"),
    (THREE, 2, 99, 3, "", "dwarfcarry: read fault g.json\n"),
    (THREE, 3, 99, 3, "", "dwarfcarry: read fault g.json\n"),
    (THREE, 4, 99, 3, "", "dwarfcarry: read fault g.wasm\n"),
    (THREE, 5, 99, 3, "", "dwarfcarry: read fault g.wasm\n"),
    (THREE, 6, 99, 3, "", "dwarfcarry: read fault g.wasm\n"),
    (THREE, 7, 99, 3, "", "dwarfcarry: read fault cut.wasm\n"),
    (THREE, 9, 99, 3, "", "dwarfcarry: read fault cut.wasm\n"),
    (TWO, 0, 10, 8, "section .d", "dwarfcarry: write fault\n"),
];

#[test]
fn ends_with_a_line_where_a_source_or_a_sink_fails(rt: HostRuntime) -> Result<(), Fail> {
    for (words, call, room, wanted, text, line) in &ENDINGS {
        let mut source = source(rt.alloc(), &FILES, &[*call])?;
        let mut out = sink(rt.alloc(), *room, 7, &[])?;
        let mut err = sink(rt.alloc(), 99, 7, &[])?;
        let status = status(rt.alloc(), words, &mut source, &mut out, &mut err)?;
        assert_eq!(rt; status, *wanted, "{line}");
        assert_eq!(rt; out.bytes(), text.as_bytes());
        assert_eq!(rt; err.bytes(), line.as_bytes());
    }
    Ok(())
}

// A line that cannot be written changes no status.
#[test]
fn ends_alike_where_no_byte_of_a_line_is_taken(rt: HostRuntime) -> Result<(), Fail> {
    for (words, call, room, wanted, text, line) in &ENDINGS {
        let mut source = source(rt.alloc(), &FILES, &[*call])?;
        let mut out = sink(rt.alloc(), *room, 7, &[])?;
        let mut err = sink(rt.alloc(), 99, 0, &[])?;
        let status = status(rt.alloc(), words, &mut source, &mut out, &mut err)?;
        assert_eq!(rt; status, *wanted, "{line}");
        assert_eq!(rt; out.bytes(), text.as_bytes());
        assert_eq!(rt; err.bytes(), b"".as_slice());
    }
    Ok(())
}

// More than the text of a run over the map and the module.
const ROOM: usize = 1 << 16;

// A run over a map and a module makes six calls of its source: where a later one is to fail, its text is whole.
#[test]
fn makes_six_calls_of_a_source(rt: HostRuntime) -> Result<(), Fail> {
    let mut source = source(rt.alloc(), &FILES, &[7])?;
    let mut out = sink(rt.alloc(), ROOM, ROOM, &[])?;
    let mut err = PlainSink::new();
    let status = status(rt.alloc(), TWO, &mut source, &mut out, &mut err)?;
    assert_eq!(rt; status, Status::Done.code());
    Ok(())
}

// At how many calls a sink fails in turn.
const FAILURES: usize = 32;

// A sink that takes a byte a call, and fails at one, has the bytes of the calls before.
#[test]
fn leaves_a_front_where_a_write_fails(rt: HostRuntime) -> Result<(), Fail> {
    let mut whole = sink(rt.alloc(), ROOM, ROOM, &[])?;
    let mut err = PlainSink::new();
    let mut files = source(rt.alloc(), &FILES, &[])?;
    let done = status(rt.alloc(), TWO, &mut files, &mut whole, &mut err)?;
    assert_eq!(rt; done, Status::Done.code());
    for taken in 0..whole.bytes().len().min(FAILURES) {
        let mut files = source(rt.alloc(), &FILES, &[])?;
        let mut out = sink(rt.alloc(), ROOM, 1, &[taken as u64 + 1])?;
        let status = status(rt.alloc(), TWO, &mut files, &mut out, &mut err)?;
        assert_eq!(rt; status, Status::WriteFault.code());
        assert_eq!(rt; out.bytes(), &whole.bytes()[..taken]);
    }
    Ok(())
}

#[test]
fn fails_where_a_sink_takes_no_byte(rt: HostRuntime) -> Result<(), Fail> {
    let mut source = source(rt.alloc(), &FILES, &[])?;
    let mut out = sink(rt.alloc(), ROOM, 0, &[])?;
    let mut err = sink(rt.alloc(), 99, 99, &[])?;
    let status = status(rt.alloc(), TWO, &mut source, &mut out, &mut err)?;
    assert_eq!(rt; status, Status::WriteFault.code());
    assert_eq!(rt; out.bytes(), b"".as_slice());
    assert_eq!(rt; err.bytes(), b"dwarfcarry: write fault\n".as_slice());
    Ok(())
}

// The lengths of files, and how a run of such files ends.
const LENGTHS: [(u64, u8, &str); 2] = [
    ((1 << 28) + 1, 4, "dwarfcarry: file too long g.json\n"),
    (1 << 16, 5, "dwarfcarry: Malformed 0\n"),
];

#[test]
fn stops_at_a_file_that_is_too_long(rt: HostRuntime) -> Result<(), Fail> {
    for (length, wanted, line) in &LENGTHS {
        let mut source = LongSource::new(*length);
        let mut out = PlainSink::new();
        let mut err = sink(rt.alloc(), 100, 100, &[])?;
        let status = status(rt.alloc(), TWO, &mut source, &mut out, &mut err)?;
        assert_eq!(rt; status, *wanted, "{length}");
        assert_eq!(rt; err.bytes(), line.as_bytes());
    }
    Ok(())
}

#[test]
fn ends_alike_where_no_line_can_be_written(rt: HostRuntime) -> Result<(), Fail> {
    for failing in 1..5 {
        let mut source = source(rt.alloc(), &FILES, &[])?;
        let mut err = sink(rt.alloc(), 100, 100, &[failing])?;
        let status = status(
            rt.alloc(),
            &["m"],
            &mut source,
            &mut PlainSink::new(),
            &mut err,
        )?;
        assert_eq!(rt; status, Status::Usage.code());
    }
    Ok(())
}

// The plain source and sink give and take all.
#[test]
fn runs_over_a_plain_source_and_sink(rt: HostRuntime) -> Result<(), Fail> {
    let mut source = PlainSource::new(files(rt.alloc(), &FILES)?);
    let mut out = PlainSink::new();
    let mut err = PlainSink::new();
    let status = status(rt.alloc(), TWO, &mut source, &mut out, &mut err)?;
    assert_eq!(rt; status, Status::Done.code());
    Ok(())
}
