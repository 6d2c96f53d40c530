//! The ranges of a label as they were given, and made flat.
ghost use Rattle.std.specs.Prelude.{◌≡◌, false, map, nat_lt, true, IfOk, IfSome, None};
ghost use Rattle.std.specs.List.{list_any};
ghost use Rattle.dwc_isa.specs.FlatRanges.{Flattens, IsFlat, IsFlatForm, goes_on as range_goes_on, goes_on_last as range_goes_on_last};
ghost use Rattle.dwc_isa.specs.LabelRegisters.{HaveSame, register_numbers, registers_of};
ghost use Rattle.dwc_isa.specs.ValueLabels.{range_view};

use crate::flat::flattened;
use crate::label_registers::registers_of_many;
use crate::{Reg, ValueLocRange};
use std::alloc::AllocError;
use std::marker::Model;

// How the ranges of a label are flat.
#[derive(Drop)]
enum FlatForm {
    // As they were given.
    Given,
    // Made anew. Few are, so that they do not take room in the others.
    Made(Box<Vec<ValueLocRange>>),
    // One of them is reversed, and they are not made so.
    Reversed,
}

/// The ranges of a label, in the order in which they were given. They are made flat once, when they are given.
#[derive(Drop)]
pub struct ToldRanges {
    ranges: Vec<ValueLocRange>,
    form: FlatForm,
    // The registers of many ranges, each once. Most labels have few ranges, for which none are kept.
    registers: Option<Box<Vec<Reg>>>,
}

impl Model for ToldRanges {
    ghost use Rattle.std.specs.Prelude.{List, map};
    ghost use Rattle.dwc_native.specs.Compiled.{LabelRange};
    ghost use Rattle.std.specs.Prelude.{IfSome};
    ghost use Rattle.dwc_isa.specs.FlatRanges.{IsFlatForm};
    ghost use Rattle.dwc_isa.specs.LabelRegisters.{HaveSame, register_numbers, registers_of};
    ghost use Rattle.dwc_isa.specs.ValueLabels.{range_view, ranges_code};

    ghost Value = { List LabelRange };

    ghost coded = { ranges_code };

    ghost view = { λ t. map range_view t.ranges.items };

    ghost invariant = { λ t. IsFlatForm (map range_view t.ranges.items) t.form × IfSome t.registers (λ rs. HaveSame (register_numbers rs.value.items) (registers_of (map range_view t.ranges.items))) };
}

impl ToldRanges {
    pub(crate) fn new(ranges: Vec<ValueLocRange>) -> Result<ToldRanges, AllocError>
        ensures { IfOk result (λ told. told ≡ map range_view ranges.items) }
    {
        let form = flat_form(&ranges)?;
        let registers = registers_of_many(&ranges)?;
        Ok(ToldRanges {
            ranges,
            form,
            registers,
        })
    }

    /// The ranges.
    pub fn as_slice(&self) -> &[ValueLocRange]
        ensures { map range_view result.now ≡ self.now }
    {
        &self.ranges
    }

    /// Flat ranges that answer at each byte as these: each is some bytes behind those in front, and none goes on where the one in front ends,
    /// at its place. None where one of these begins above its end.
    pub fn flat(&self) -> Option<&[ValueLocRange]>
        ensures flat { IfSome result (λ flat. Flattens self.now (map range_view flat.now)) }
        ensures good { IfSome result (λ flat. list_any (λ r. nat_lt r.end r.start) self.now ≡ false) }
        ensures reversed { result ≡ None → list_any (λ r. nat_lt r.end r.start) self.now ≡ true }
    {
        match &self.form {
            FlatForm::Given => Some(&self.ranges),
            FlatForm::Made(flat) => Some(flat.as_ref()),
            FlatForm::Reversed => None,
        }
    }

    /// The registers in which the value lies in one of the ranges, each once. None where there are few ranges.
    pub fn registers(&self) -> Option<&[Reg]>
        ensures { IfSome result (λ rs. HaveSame (register_numbers rs.now) (registers_of self.now)) }
    {
        match &self.registers {
            Some(registers) => Some(registers.as_ref()),
            None => None,
        }
    }
}

// How ranges are flat.
fn flat_form(ranges: &Vec<ValueLocRange>) -> Result<FlatForm, AllocError>
    ensures { IfOk result (IsFlatForm (map range_view ranges.now.items)) }
{
    if are_flat(ranges) {
        return Ok(FlatForm::Given);
    }
    if has_reversed(ranges) {
        return Ok(FlatForm::Reversed);
    }
    let alloc = *ranges.allocator();
    let flat = flattened(alloc, ranges)?;
    Ok(FlatForm::Made(Box::new(alloc, flat)?))
}

// Whether each range is some bytes behind those in front, and none goes on where the one in front ends, at its place.
fn are_flat(ranges: &[ValueLocRange]) -> bool
    ensures { result ≡ true → IsFlat (map range_view ranges.now) }
{
    let mut end = 0;
    for (i, range) in ranges.iter().enumerate() {
        if range.start < end || range.end <= range.start || goes_on_last(&ranges[..i], range) {
            return false;
        }
        end = range.end;
    }
    true
}

// Whether a range begins above its end.
fn has_reversed(ranges: &[ValueLocRange]) -> bool
    ensures { result ≡ list_any (λ r. nat_lt r.end r.start) (map range_view ranges.now) }
{
    for range in ranges {
        if range.end < range.start {
            return true;
        }
    }
    false
}

// Whether a range goes on where the last of some ends, at its place.
pub(crate) fn goes_on_last(ranges: &[ValueLocRange], next: &ValueLocRange) -> bool
    ensures { result ≡ range_goes_on_last (map range_view ranges.now) (range_view next.now) }
{
    match ranges.split_last() {
        Some((last, _)) => goes_on(last, next),
        None => false,
    }
}

// Whether a range goes on where another ends, at its place.
fn goes_on(range: &ValueLocRange, next: &ValueLocRange) -> bool
    ensures { result ≡ range_goes_on (range_view range.now) (range_view next.now) }
{
    range.end == next.start && range.loc == next.loc
}
