//! Tests of what no clause says and no case of `dwc_cases` reaches: of the system's files and streams, of runs over sources and
//! sinks that fail, and that ample memory suffices for the public calls that no run makes.
#![tactic(auto)]

#[cfg(test)]
mod carried;
#[cfg(test)]
mod compiled;
#[cfg(test)]
mod expressions;
#[cfg(test)]
mod host;
#[cfg(test)]
mod label_ranges;
#[cfg(test)]
mod module_file;
#[cfg(test)]
mod plain_program;
#[cfg(test)]
mod refusals;
#[cfg(test)]
mod runs;
#[cfg(test)]
mod stacks;
#[cfg(test)]
mod targets;
#[cfg(test)]
mod translations;
#[cfg(test)]
mod units;
#[cfg(test)]
mod writing;
