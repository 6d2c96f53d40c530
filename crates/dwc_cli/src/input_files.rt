//! The files of a run.

use dwc_map::MapFile;

// What is held of the files that the words of a run name: the map that the map's bytes are, None where they are none, and the bytes of the
// modules.
#[derive(Drop)]
pub(crate) struct InputFiles {
    pub(crate) map_file: Option<MapFile>,
    pub(crate) modules: Vec<Vec<u8>>,
}
