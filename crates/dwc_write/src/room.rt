//! The room that sections take, counted while entries are laid out, so that it is made once for a unit. No contract hangs on it.

use dwc_base::Address;
use dwc_unit::Expression;

// What is counted of the entries of a unit.
#[derive(Clone, Copy)]
pub struct Counts {
    // values with a relocation
    pub relocated: usize,
    // range lists and their intervals, together
    pub ranges: usize,
    // location lists, their intervals, and the bytes of their expressions with their lengths
    pub lists: usize,
    pub locations: usize,
    pub held: usize,
}

// Lengths of expressions have two bytes up to version 4, and seldom more from version 5 on.
const LENGTH_BYTES: usize = 2;

// Lengths of intervals seldom have more bytes.
const USUAL_EXTENT: usize = 3;

// In front of the lists of a unit.
const HEADER_BYTES: usize = 12;

// Nothing is counted.
pub const NO_COUNTS: Counts = Counts {
    relocated: 0,
    ranges: 0,
    lists: 0,
    locations: 0,
    held: 0,
};

// Counts a value with a relocation.
pub fn count_relocated(counts: &mut Counts) {
    add_to(&mut counts.relocated, 1);
}

// Counts a range list.
pub fn count_ranges(counts: &mut Counts, ranges: &[(Address, u64)]) {
    count_relocated(counts);
    add_to(&mut counts.ranges, 1);
    add_to(&mut counts.ranges, ranges.len());
}

// Counts a location list.
pub fn count_locations(counts: &mut Counts, locations: &[(Address, u64, Expression)]) {
    count_relocated(counts);
    add_to(&mut counts.lists, 1);
    add_to(&mut counts.locations, locations.len());
    for location in locations {
        add_to(&mut counts.held, LENGTH_BYTES);
        add_to(&mut counts.held, location.2.as_slice().len());
    }
}

// Counts so many more.
fn add_to(count: &mut usize, more: usize) {
    *count = count.saturating_add(more);
}

impl Counts {
    // Adds what is counted of another unit.
    pub fn add(&mut self, more: &Counts) {
        add_to(&mut self.relocated, more.relocated);
        add_to(&mut self.ranges, more.ranges);
        add_to(&mut self.lists, more.lists);
        add_to(&mut self.locations, more.locations);
        add_to(&mut self.held, more.held);
    }

    // About the bytes of range lists, whose addresses have so many bytes.
    pub fn range_bytes(&self, version: u16, size: u8) -> usize {
        self.ranges
            .saturating_mul(interval_bytes(version, size))
            .saturating_add(HEADER_BYTES)
    }

    // Their relocations, and as many for each end of a list.
    pub fn range_relocations(&self, version: u16) -> usize {
        self.ranges.saturating_mul(interval_relocations(version))
    }

    // About the bytes of location lists.
    pub fn location_bytes(&self, version: u16, size: u8) -> usize {
        let intervals = self.lists.saturating_add(self.locations);
        intervals
            .saturating_mul(interval_bytes(version, size))
            .saturating_add(self.held)
            .saturating_add(HEADER_BYTES)
    }

    // Their relocations.
    pub fn location_relocations(&self, version: u16) -> usize {
        self.locations.saturating_mul(interval_relocations(version))
    }
}

// About the bytes of an interval: both ends, or a kind, the begin and a length.
fn interval_bytes(version: u16, size: u8) -> usize {
    let address = usize::from(size);
    if version < 5 {
        2 * address
    } else {
        1 + address + USUAL_EXTENT
    }
}

// Its relocations.
fn interval_relocations(version: u16) -> usize {
    if version < 5 { 2 } else { 1 }
}
