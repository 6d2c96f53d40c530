//! The units of `.debug_info`, one after another.
ghost use Rattle.std.specs.Prelude.{◌≡◌, IfOk, IfSome};
ghost use Rattle.dwc_dwarf.specs.UnitOffsets.{StandFrom};
ghost use Rattle.dwc_base.specs.Units.{unit_headers};
ghost use Rattle.dwc_read.specs.Faults.{GivesNextOrMemory};

use crate::fault::reported;
use crate::headers::next_header;
use crate::unit_table::{KnownTables, shared_table};
use crate::{ReadFault, Sections, Unit};
use dwc_base::{Cursor, SectionName, What};
use std::alloc::Global;
use std::marker::Model;

/// The units of `.debug_info` that are still to come, each beginning where the one before ends.
#[derive(Drop)]
pub struct Units<'d> {
    sections: Sections<'d>,
    headers: Cursor<'d>,
    // The abbreviation tables that were read, which the next unit may share; None before the first unit.
    tables: Option<KnownTables>,
}

impl<'d> Model for Units<'d> {
    ghost use Rattle.dwc_base.specs.Units.{unit_headers_from};
    ghost use Rattle.dwc_read.specs.Views.{UnitsView, units_code};

    ghost Value = { UnitsView };

    ghost coded = { units_code };

    ghost use Rattle.dwc_read.specs.KnownTables.{AreKnownIf};

    ghost view = { λ u. record { sections = u.sections; headers = unit_headers_from u.headers } };

    ghost invariant = { λ u. AreKnownIf u.sections u.tables };
}

impl<'d> Units<'d> {
    /// All units of `.debug_info`.
    pub fn new(sections: Sections<'d>) -> Units<'d>
        ensures { result ≡ record { sections = sections.entry; headers = unit_headers sections.entry } }
    {
        let info = sections.bytes(SectionName::Info);
        let headers = Cursor::new(info, sections.order());
        Units {
            sections,
            headers,
            tables: None,
        }
    }

    /// The sections that the units stand in, one behind another.
    pub fn sections(&self) -> &Sections<'d>
        ensures sections { result.now ≡ self.now.sections }
        ensures stand { StandFrom self.now.sections 0 self.now.headers.items }
    {
        &self.sections
    }

    /// The next unit, if there is one, with its abbreviation table. (DWARF 4 and 5, sections 7.5.1 and 7.5.3.) The tables that
    /// were read are kept, and are not read again for the units behind that share them or an end of them.
    ///
    /// Answers `Read` with the unit's offset where no unit header stands there, and `Unsupported` with it where the unit is of
    /// the 64-bit format, of a version other than 2 to 5, a type unit, or of an address size other than 4 and 8. At the
    /// end, and after one of these, each later call answers the same. After `OutOfMemory` the call can be made again. A table
    /// that cannot be read is told where it is first used.
    pub fn next_unit(&mut self, alloc: Global) -> Result<Option<Unit<'d>>, ReadFault>
        ensures unit { GivesNextOrMemory (λ u. u.header) self.old.headers self.new.headers result }
        ensures sections { self.new.sections ≡ self.old.sections }
        ensures stands_in { IfOk result (λ o. IfSome o (λ u. u.sections ≡ self.old.sections)) }
    {
        let mut ahead = self.headers.fork();
        match next_header(&mut ahead) {
            Ok(Some(header)) => {
                let offset = header.abbreviations;
                let table = shared_table(
                    alloc,
                    &self.sections,
                    &self.headers,
                    offset,
                    &mut self.tables,
                )?;
                self.headers = ahead;
                Ok(Some(Unit::new(self.sections.again(), header, table)))
            }
            Ok(None) => Ok(None),
            Err(fault) => Err(reported(
                fault.flaw,
                What::UnitHeader,
                SectionName::Info,
                fault.offset as u64,
            )),
        }
    }
}
