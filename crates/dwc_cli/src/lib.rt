//! The program: the words, the files that they name, and one run from them to the printed text.
#![tactic(auto)]

mod answer;
mod asked;
mod backward;
mod calls;
mod carrying;
mod command;
mod failure;
mod front;
mod host;
mod input_files;
mod loading;
mod long_source;
mod mem_sink;
mod mem_source;
mod memory_files;
mod opened;
mod page;
mod plain_sink;
mod plain_source;
mod printing;
mod reading;
mod refusal;
mod sink;
mod source;
mod status;
mod words;

pub use command::run;
pub use dwc_map::{MapFile, MapModule, Names, Target, map_of};
pub use host::{HostSink, HostSource};
pub use long_source::LongSource;
pub use mem_sink::MemSink;
pub use mem_source::MemSource;
pub use plain_sink::PlainSink;
pub use plain_source::PlainSource;
pub use printing::printed;
pub use sink::Sink;
pub use source::{Failed, Source};
pub use status::Status;
