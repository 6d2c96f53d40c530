//! Cases, as a file tells them.

/// What is done with the files of a case.
#[derive(Clone, Copy)]
pub(crate) enum Action {
    /// The program is run.
    Run,
    /// The units of the first file are listed.
    Units,
    /// The line table at 0 of the first file is listed.
    Lines,
}

/// A case: its name, and what it is made of.
#[derive(Drop)]
pub(crate) struct Case {
    pub(crate) name: String,
    pub(crate) action: Action,
    pub(crate) words: Vec<String>,
    pub(crate) files: Vec<(String, Vec<u8>)>,
}
