//! Names of directories and files, as they are given: one behind another in one piece of memory. (DWARF 4, section 6.2.4.)
ghost use Rattle.std.specs.Prelude.{◌≡◌, ◌++◌, ◌∷◌, [], ◌<◌, OnOk, OnErr, length, slice_index_or};
ghost use Rattle.dwc_dwarf.specs.LineHeaders.{LineFile};
ghost use Rattle.dwc_unit.specs.NameViews.{start_at};

use std::alloc::{AllocError, Global};
use std::marker::Model;

/// Names in their order: their bytes one behind another, and where each of them ends.
#[derive(Drop)]
pub struct Names {
    bytes: Vec<u8>,
    ends: Vec<usize>,
}

impl Model for Names {
    ghost use Rattle.std.specs.Prelude.{List, ℕ, length};
    ghost use Rattle.dwc_unit.specs.NameViews.{cut, AreEnds};

    ghost Value = { List (List ℕ) };

    ghost view = { λ n. cut 0 n.ends.items n.bytes.items };

    ghost invariant = { λ n. AreEnds 0 n.ends.items (length n.bytes.items) };
}

impl Names {
    // No names.
    pub(crate) fn new(alloc: Global) -> Names
        ensures { result ≡ [] }
    {
        Names {
            bytes: Vec::new(alloc),
            ends: Vec::new(alloc),
        }
    }

    // Adds a name behind the others.
    pub(crate) fn push(&mut self, name: &[u8]) -> Result<(), AllocError>
        ensures ok { OnOk result (self.new ≡ self.old ++ name.now ∷ []) }
        ensures err { OnErr result (self.new ≡ self.old) }
    {
        self.ends.reserve(1)?;
        self.bytes.extend_from_slice(name)?;
        self.ends.push(self.bytes.len()).unwrap();
        Ok(())
    }

    /// How many names there are.
    pub fn len(&self) -> usize
        ensures { result ≡ length self.now }
    {
        self.ends.len()
    }

    /// The name at a place.
    pub fn get(&self, i: usize) -> &[u8]
        requires { i < length self.now }
        ensures { result.now ≡ slice_index_or self.now i result.now }
    {
        let start = start_of(&self.ends, i);
        let end = self.ends[i];
        &self.bytes[start..end]
    }
}

// Where a name begins: where the one before it ends.
fn start_of(ends: &[usize], i: usize) -> usize
    requires { i < length ends.now }
    ensures { result ≡ start_at 0 ends.now i }
{
    if i == 0 { 0 } else { ends[i - 1] }
}

/// Files in their order: their names, and the numbers of their directories.
#[derive(Drop)]
pub struct Files {
    names: Names,
    directories: Vec<u64>,
}

impl Model for Files {
    ghost use Rattle.std.specs.Prelude.{◌≡◌, ℕ, List, length};
    ghost use Rattle.dwc_dwarf.specs.LineHeaders.{LineFile};
    ghost use Rattle.dwc_unit.specs.NameViews.{files_of};

    ghost Value = { List LineFile };

    ghost view = { λ f. files_of f.names f.directories.items };

    ghost invariant = { λ f. ◌≡◌ {A = ℕ} (length f.names) (length f.directories.items) };
}

impl Files {
    // No files.
    pub(crate) fn new(alloc: Global) -> Files
        ensures { result ≡ [] }
    {
        Files {
            names: Names::new(alloc),
            directories: Vec::new(alloc),
        }
    }

    // Adds a file behind the others.
    pub(crate) fn push(&mut self, directory: u64, name: &[u8]) -> Result<(), AllocError>
        ensures ok { OnOk result (self.new ≡ self.old ++ record { directory = directory; name = name.now } ∷ []) }
        ensures err { OnErr result (self.new ≡ self.old) }
    {
        self.directories.reserve(1)?;
        self.names.push(name)?;
        self.directories.push(directory).unwrap();
        Ok(())
    }

    /// How many files there are.
    pub fn len(&self) -> usize
        ensures { result ≡ length self.now }
    {
        self.directories.len()
    }

    /// The name of the file at a place.
    pub fn name(&self, i: usize) -> &[u8]
        requires { i < length self.now }
        ensures { (d : LineFile) → result.now ≡ (slice_index_or self.now i d).name }
    {
        self.names.get(i)
    }

    /// The number of its directory.
    pub fn directory(&self, i: usize) -> u64
        requires { i < length self.now }
        ensures { (d : LineFile) → result ≡ (slice_index_or self.now i d).directory }
    {
        self.directories[i]
    }
}
