//! The sections of a WebAssembly file that tell of its functions. (WebAssembly 1.0, sections 5.5.4, 5.5.6, 5.5.13 and 7.4.1.)
ghost use Rattle.std.specs.Prelude.{◌≡◌, []};
ghost use Rattle.dwc_wasm.specs.FileParts.{contents_view};
ghost use Rattle.dwc_wasm.specs.FunctionSections.{HoldsLast, NotesContents};

use crate::walk::Contents;
use dwc_base::{Cursor, Endian};

// The id of the type section, and the title of the custom section with names.
const TYPE: u8 = 1;

const NAME: &str = "name";

/// The contents of the type, function and code sections and of the custom section `name`, each the last of its kind; no bytes where there
/// is none.
#[derive(Drop)]
pub(crate) struct FunctionSections<'d> {
    pub types: Cursor<'d>,
    pub functions: Cursor<'d>,
    pub code: Cursor<'d>,
    pub names: Cursor<'d>,
}

impl<'d> FunctionSections<'d> {
    /// Those of a file without sections.
    pub(crate) fn none() -> FunctionSections<'d>
        ensures { HoldsLast result [] }
    {
        FunctionSections {
            types: Cursor::new(&[], Endian::Little),
            functions: Cursor::new(&[], Endian::Little),
            code: Cursor::new(&[], Endian::Little),
            names: Cursor::new(&[], Endian::Little),
        }
    }

    /// Takes note of what a further section holds.
    pub(crate) fn note(&mut self, contents: &Contents<'d>)
        ensures { NotesContents self.old self.new (contents_view contents.now) }
    {
        match contents {
            Contents::Custom { name, rest } => {
                if *name == NAME {
                    self.names = rest.fork();
                }
            }
            Contents::Imports { .. } => {}
            Contents::Functions { body, .. } => self.functions = body.fork(),
            Contents::Code { body } => self.code = body.fork(),
            Contents::Other { id, body } => {
                if *id == TYPE {
                    self.types = body.fork();
                }
            }
        }
    }
}
