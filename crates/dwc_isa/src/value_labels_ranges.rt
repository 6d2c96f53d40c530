//! Where the values of a function lie, by their labels.
ghost use Rattle.std.specs.Prelude.{◌≡◌, OnOk, OnErr, map, option_map};
ghost use Rattle.std.specs.Iterator.{YieldsFirst, item_count};
ghost use Rattle.std.specs.FinMap as finite;
ghost use Rattle.dwc_isa.specs.ValueLabels.{range_view};

use crate::{ToldRanges, ValueLabel, ValueLocRange};
use std::alloc::{AllocError, Global};
use std::collections::BTreeMap;
use std::collections::btree_map::Keys;
use std::marker::Model;

/// For each label the parts of a function's code in which its value lies somewhere, in the order in which they were given. Where
/// parts overlap, the last one counts.
#[derive(Drop)]
pub struct ValueLabelsRanges {
    by_label: BTreeMap<u32, ToldRanges>,
}

impl Model for ValueLabelsRanges {
    ghost use Rattle.dwc_isa.specs.ValueLabels.{LabelledRanges, labelled_code, labelled_by};

    ghost Value = { LabelledRanges };

    ghost coded = { labelled_code };

    ghost view = { λ r. labelled_by r.by_label.entries };
}

impl ValueLabelsRanges {
    /// No labels. It takes no memory.
    pub fn new(alloc: Global) -> ValueLabelsRanges
        ensures { result ≡ finite.empty }
    {
        ValueLabelsRanges {
            by_label: BTreeMap::new(alloc),
        }
    }

    /// Gives a label its ranges; those that it had are dropped.
    ///
    /// # Errors
    /// `AllocError` for want of memory; nothing is changed then.
    pub fn insert(
        &mut self,
        label: ValueLabel,
        ranges: Vec<ValueLocRange>,
    ) -> Result<(), AllocError>
        ensures ok { OnOk result (self.new ≡ finite.insert self.old label.0 (map range_view ranges.items)) }
        ensures err { OnErr result (self.new ≡ self.old) }
    {
        let told = ToldRanges::new(ranges)?;
        self.by_label.insert(label.0, told)?;
        Ok(())
    }

    /// The ranges of a label, in the order in which they were given; None for a label that is not there.
    pub fn get(&self, label: ValueLabel) -> Option<&[ValueLocRange]>
        ensures { option_map (λ x. map range_view x.now) result ≡ finite.get self.now label.0 }
    {
        match self.by_label.get(&label.0) {
            Some(told) => Some(told.as_slice()),
            None => None,
        }
    }

    /// The same, with what they are when they are flat.
    pub fn told(&self, label: ValueLabel) -> Option<&ToldRanges>
        ensures { option_map (λ x. x.now) result ≡ finite.get self.now label.0 }
    {
        self.by_label.get(&label.0)
    }

    /// The labels, in rising order.
    pub fn labels(&self) -> Labels<'_>
        ensures { result ≡ finite.keys self.now }
    {
        Labels {
            keys: self.by_label.keys(),
        }
    }
}

/// The labels of a function's values that are still to come, in rising order. They take no memory.
#[derive(Drop)]
pub struct Labels<'a> {
    keys: Keys<'a, u32, ToldRanges>,
}

impl<'a> Model for Labels<'a> {
    ghost use Rattle.std.specs.Prelude.{List, ℕ};

    ghost Value = { List ℕ };

    ghost view = { λ l. l.keys };
}

impl<'a> Iterator for Labels<'a> {
    type Item = ValueLabel;

    ghost next_gives = { YieldsFirst (λ labels. map (λ n. record { 0 = n }) labels) };

    ghost remaining = { item_count (λ labels. labels) };

    fn next(&mut self) -> Option<ValueLabel> {
        match self.keys.next() {
            Some(label) => Some(ValueLabel(*label)),
            None => None,
        }
    }
}
