//! `dwc_cases FILE..`: runs each case of some files, and prints its name and how it ends. A file of cases has a line for each
//! case, and behind it a line for each part of the case:
//!
//! - `run NAME`: the program is run on words and files. The status, the line on standard error and the printed text follow.
//! - `units NAME`: the units of the first file, a WebAssembly module, are printed with their entries.
//! - `lines NAME`: the line table at 0 of that file is printed, as its first unit reads it.
//! - `word TEXT`: the next word of the run.
//! - `text PATH TEXT` and `hex PATH HEX`: the next file, by its text or by its bytes in hexadecimal.
//!
//! Other lines are empty, or begin with `#`. The files in `data/`, and what is to be printed for them, are made by
//! `bench/make_cases.py`.
#![tactic(auto)]

mod case;
mod ending;
mod line_listing;
mod reading;
mod unit_listing;

use anyhow::Result;
use std::io::{BufWriter, Write};
use std::{env, fs, io};

fn main(rt: HostRuntime) -> Result<()> {
    let alloc = rt.alloc();
    let mut out = BufWriter::new(alloc, io::writer(&rt))?;
    for path in env::args(&rt)?.skip(1) {
        let text = fs::read_to_string(&rt, path.as_str())?;
        for case in reading::cases_of(alloc, text.as_str())? {
            ending::print_ending(alloc, &mut out, case)?;
        }
    }
    out.flush()?;
    Ok(())
}
