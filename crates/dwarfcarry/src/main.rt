//! `dwarfcarry MAP MODULE`: prints the DWARF of a WebAssembly module, rewritten for the native code that was compiled from
//! it. MAP is a JSON file that tells where that code came from.
#![tactic(auto)]

use dwc_cli::{HostSink, HostSource, Status, run};
use std::alloc::Global;
use std::process::ExitCode;
use std::{env, io};

// The size in bytes of the block that is let go first: less than 32 MiB, from where on the C library learns nothing of one.
const KEPT: usize = 31 << 20;

// The size of each of two blocks that are let go behind it, so that together they are free at the end of the heap: less than `KEPT`, from
// where on a block has pages of its own, and both less than twice as much, from where on the C library gives the end of the heap back.
const FREE_AT_END: usize = 30 << 20;

// The status where the words cannot be got.
const NO_WORDS: u8 = 1;

fn main(rt: HostRuntime) -> ExitCode {
    let words = match words(&rt) {
        Ok(words) => words,
        Err(error) if error.kind() == io::ErrorKind::OutOfMemory => {
            return ExitCode::from(Status::OutOfMemory.code());
        }
        Err(_) => return ExitCode::from(NO_WORDS),
    };
    let alloc = rt.alloc();
    keep_memory(alloc);
    let (stdout, stderr) = (rt.stdout(), rt.stderr());
    let mut out = HostSink::new(io::writer(&stdout));
    let mut err = HostSink::new(io::writer(&stderr));
    let mut source = HostSource::new(rt);
    ExitCode::from(run(alloc, &words, &mut source, &mut out, &mut err))
}

// Makes the C library hand out again what is let go later: it gives each block of more than 128 KiB back to the system until a larger one
// was let go, and new pages take time. And makes the end of the heap free: a list that grows there is not moved, as one is that the C
// library gives pages of its own. A block that nothing touches takes no page.
fn keep_memory(alloc: Global) {
    drop(Vec::<u8>::with_capacity(alloc, KEPT));
    let front = Vec::<u8>::with_capacity(alloc, FREE_AT_END);
    let behind = Vec::<u8>::with_capacity(alloc, FREE_AT_END);
    drop(behind);
    drop(front);
}

// The words behind the program's name.
fn words(rt: &HostRuntime) -> io::Result<Vec<String>> {
    let mut words = Vec::new(rt.alloc());
    for word in env::args(rt)?.skip(1) {
        words.push(word)?;
    }
    Ok(words)
}
