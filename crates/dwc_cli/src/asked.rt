//! What was asked of a source or a sink.
ghost use Rattle.std.specs.Prelude.{◌≡◌, true, false, List, [], ◌∷◌};
ghost use Rattle.std.specs.Borrow.{ftrue};
ghost use Rattle.dwc_cli.specs.Calls.{Call, opening, passing, call_of};

use std::marker::{Model, PhantomData};

// The calls that were made of a source or a sink, the latest first. It takes no bytes.
#[derive(Drop)]
pub(crate) struct Asked {
    marker: PhantomData<u8>,
    pub(crate) ghost calls: { List Call },
}

impl Model for Asked {
    ghost also_owns = { λ _. ftrue };
}

impl Asked {
    // No call was made.
    pub(crate) fn new() -> Asked
        ensures { result.calls ≡ [] }
    {
        Asked {
            marker: PhantomData,
        }
    }

    // The file at a path was opened, or could not be.
    #[inline]
    pub(crate) fn note_opening(&mut self, path: &str, well: bool)
        ensures { self.new.calls ≡ opening path.now well ∷ self.old.calls }
    {
        if well {
            self.note(&[0], path.as_bytes());
        } else {
            self.note(&[1], path.as_bytes());
        }
    }

    // A read or a write passed some bytes, with a buffer of so many.
    #[inline]
    pub(crate) fn note_passing(&mut self, room: usize, bytes: &[u8])
        ensures { self.new.calls ≡ passing room bytes.now true ∷ self.old.calls }
    {
        self.note(&[2, room as u64], bytes);
    }

    // A read or a write failed, with a buffer of so many bytes.
    #[inline]
    pub(crate) fn note_failing(&mut self, room: usize)
        ensures { self.new.calls ≡ passing room [] false ∷ self.old.calls }
    {
        self.note(&[3, room as u64], &[]);
    }

    // A call, by the numbers of its kind and of its buffer's length.
    fn note(&mut self, _numbers: &[u64], _bytes: &[u8])
        ensures { self.new.calls ≡ call_of _numbers.now _bytes.now ∷ self.old.calls }
    {}
}
