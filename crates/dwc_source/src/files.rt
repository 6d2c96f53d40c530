//! The files that entries of a unit name.
ghost use Rattle.std.specs.Prelude.{◌≡◌};
ghost use Rattle.std.specs.Prelude.{Option, ℕ};
ghost use Rattle.dwc_dwarf.specs.LineRows.{LineTable};
ghost use Rattle.dwc_rules.specs.Clones.{UnitSource, file_number, number_written};
ghost use Rattle.dwc_source.specs.Sources.{AreFiles};

/// The files of a unit's line table: the table's version and how many files it has. Of a unit without one, the unit's version. With the
/// version of the output, 4 or 5.
#[derive(Clone, Copy)]
pub struct UnitFiles {
    pub version: u16,
    pub count: Option<u64>,
    pub output_version: u16,
}

impl UnitFiles {
    /// The number in the output of the file of a number; None where the file is not there, or where an output of version 5 would name one
    /// though none is named. Files are numbered from 1 up to version 4, where 0 is no file and stays 0, and from 0 in version 5; in the
    /// output they are numbered from 1. (DWARF 4, section 6.2.4; DWARF 5, section 6.2.4.1.)
    pub fn number(self, number: u64) -> Option<u64>
        ensures { (s : UnitSource) → AreFiles self s.output_version s.version s.table → result ≡ number_written s.output_version (file_number s.version s.table number) }
    {
        let number = self.numbered_from_one(number)?;
        if self.output_version >= 5 && number == 0 {
            return None;
        }
        Some(number)
    }

    // The number of a file where files are numbered from 1 and 0 is no file; None where the file is not there.
    fn numbered_from_one(self, number: u64) -> Option<u64>
        ensures { (output version : ℕ) (table : Option LineTable) → AreFiles self output version table → result ≡ file_number version table number }
    {
        if self.version < 5 && number == 0 {
            return Some(0);
        }
        let count = self.count?;
        if self.version < 5 {
            if number <= count { Some(number) } else { None }
        } else if number < count {
            Some(number + 1)
        } else {
            None
        }
    }
}
