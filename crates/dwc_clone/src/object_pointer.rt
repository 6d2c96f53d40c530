//! Parameters that point to the object of a function. Such a parameter becomes a wrapper, which no debugger takes for one of its own: so it
//! gets another name, and is no longer told as an object pointer. (DWARF 4, section 5.5.7; DWARF 5, section 5.7.8.)
ghost use Rattle.std.specs.Prelude.{◌≡◌, ◌==◌, ◌&&◌, ◌-ℤ◌, ℕ, pos, List, ◌∷◌, ◌++◌, Option, Some, Ok, IfOk, IfSome, IsOkUnless, OnOk, codes, option_map};
ghost use Rattle.dwc_rules.specs.Kept.{Placed};
ghost use Rattle.dwc_rules.specs.ObjectPointers.{has_parameters, is_pointer, is_this_name, looks_like_this, unlike_this};
ghost use Rattle.dwc_rules.specs.Scopes.{top_at};
ghost use Rattle.dwc_rules.specs.TypeNames.{type_of as type_named};
ghost use Rattle.dwc_dwarf.specs.Indexed.{texts_of_unit};
ghost use Rattle.dwc_dwarf.specs.Entries as Entries;
ghost use Rattle.dwc_dwarf.specs.Entries.{attribute};
ghost use Rattle.dwc_base.specs.declared.constants.TheConstants.{DW_AT_name as name, DW_AT_object_pointer as object_pointer};
ghost use Rattle.dwc_rules.specs.Clones.{UnitSource, attribute_becomes};
ghost use Rattle.dwc_dwarf.specs.Values.{Value};
ghost use Rattle.dwc_isa.specs.Registers.{Registers};
ghost use Rattle.dwc_rules.specs.Drafts.{DraftValue, done};
ghost use Rattle.dwc_dwarf.specs.ReadValues.{IsReadValue};
ghost use Rattle.dwc_dwarf.specs.Trees as Trees;
ghost use Rattle.dwc_read.specs.EntriesSeen.{entry_view};
ghost use Rattle.dwc_read.specs.ValuesSeen.{attribute_view, value_view};
ghost use Rattle.dwc_unit.specs.GivenUnits.{FitsValue};
ghost use Rattle.dwc_unit.specs.TextTables.{IsText};
ghost use Rattle.dwc_source.specs.declared.places.EmittedEntry.{EmittedEntry};
ghost use Rattle.dwc_clone.specs.ClonedEntries.{told_draft};
ghost use Rattle.dwc_source.specs.Sources.{placed_entry, AreEmitted, IsEmitted, IsSource};
ghost use Rattle.dwc_clone.specs.ClonedUnits.{placed_in};
ghost use Rattle.dwc_extents.specs.CodeSources.{clone_rules};
ghost use Rattle.dwc_extents.specs.Lineages.{AreWalked};
ghost use Rattle.dwc_source.specs.MadeValues.{GivesMade, Grows, SaysMore};
ghost use Rattle.dwc_clone.specs.ParameterContexts.{GivesOnly, GivesTelling, context_given, contexts_behind, is_first, met, met_at, next_number, points_by, told_behind, with_context};
ghost use Rattle.dwc_clone.specs.Tellings.{names_within, tell_of, telling_of};

use dwc_base::constants::{
    DW_AT_artificial, DW_AT_name, DW_AT_object_pointer, DW_TAG_entry_point,
    DW_TAG_formal_parameter, DW_TAG_inlined_subroutine, DW_TAG_pointer_type, DW_TAG_subprogram,
};
use dwc_extents::InheritedAttr;
use dwc_kept::named_offset;
use dwc_read::{AttributeValue as InputValue, Entry};
use dwc_source::{CloneError, CloneSource, text_of};
use dwc_types::type_of;
use dwc_unit::{AttributeValue, StringTable};
use std::alloc::Global;

/// What a function tells of its parameters, in a walk over them in order.
#[derive(Clone, Copy)]
pub struct SubprogramContext {
    /// The offset of the entry that it names as its object pointer, 0 where it names none.
    pub obj_ptr: u64,
    /// The number of the parameter that was met last, from 0 on, and 1 for each behind the first; -1 where none was met.
    pub param_num: i64,
}

/// How the attributes of an entry are told.
#[derive(Clone, Copy)]
pub(crate) enum Telling {
    /// As they are.
    Plain,
    /// Those of a function, which does not name its object pointer.
    Function,
    /// Those of an object pointer.
    ObjectPointer,
}

// Whether entries of a tag have parameters: functions, their inlined instances, and further entries into them.
fn has_parameters(tag: u16) -> bool
    ensures { (e : Placed) → e.entry.tag ≡ tag → result ≡ has_parameters e }
{
    match tag {
        DW_TAG_subprogram | DW_TAG_inlined_subroutine | DW_TAG_entry_point => true,
        _ => false,
    }
}

// What a function tells of its parameters before the first of them.
fn context_of(source: &CloneSource<'_, '_>, entry: &Entry<'_>) -> SubprogramContext
    ensures { result ≡ context_given source.now (entry_view entry.now) }
{
    let obj_ptr = match entry.attr(DW_AT_object_pointer) {
        Some(value) => named_offset(source.unit.offset(), source.unit.end(), value).unwrap_or(0),
        None => 0,
    };
    SubprogramContext {
        obj_ptr: u64::from(obj_ptr),
        param_num: -1,
    }
}

// The number of the parameter behind one of a number.
fn next_parameter(number: i64) -> i64
    ensures { result ≡ next_number number }
{
    if number < 0 { 0 } else { 1 }
}

// What the parent of a parameter tells of it, if that is a function.
fn context_at(
    contexts: &mut InheritedAttr<SubprogramContext>,
    entry: &Entry<'_>,
) -> Option<SubprogramContext>
    ensures contexts { contexts.new ≡ met_at (pos (entry_view entry.now).depth -ℤ pos 1) contexts.old }
    ensures told { result ≡ option_map met (top_at (pos (entry_view entry.now).depth -ℤ pos 1) contexts.old) }
{
    let context = contexts.top_with_depth_mut(entry.depth - 1)?;
    context.param_num = next_parameter(context.param_num);
    Some(*context)
}

// Whether an entry has no name that is a text, or the name `this`.
fn is_this(source: &CloneSource<'_, '_>, entry: &Entry<'_>) -> bool
    ensures { result ≡ is_this_name (texts_of_unit source.now.unit.now.sections source.now.unit.now.header) (attribute name (entry_view entry.now)) }
{
    let Some(value) = entry.attr(DW_AT_name) else {
        return true;
    };
    match text_of(source.unit, entry.offset, value) {
        Ok(Some(text)) => text == b"this".as_slice(),
        Ok(None) => true,
        Err(_) => false,
    }
}

// Whether the type of an entry is a pointer.
fn goes_to_pointer(
    alloc: Global,
    source: &CloneSource<'_, '_>,
    entry: &Entry<'_>,
) -> Result<bool, CloneError>
    ensures { (number : ℕ) (s : UnitSource) → IsSource source.now number s → IsEmitted source.now s (placed_entry source.now (entry_view entry.now)) → GivesOnly (is_pointer (type_named s.entries (placed_entry source.now (entry_view entry.now)))) result }
{
    let Some(named) = type_of(source, entry) else {
        return Ok(false);
    };
    let named = source.unit.entry_at(alloc, named.offset)?;
    Ok(named.tag == DW_TAG_pointer_type)
}

// Whether a parameter looks like an object pointer: it is artificial, has no name or the name `this`, and its type is a pointer.
fn looks_like_this(
    alloc: Global,
    source: &CloneSource<'_, '_>,
    entry: &Entry<'_>,
) -> Result<bool, CloneError>
    ensures { (number : ℕ) (s : UnitSource) → IsSource source.now number s → IsEmitted source.now s (placed_entry source.now (entry_view entry.now)) → GivesOnly (looks_like_this s.texts s.entries (placed_entry source.now (entry_view entry.now))) result }
{
    let Some(InputValue::Flag(true)) = entry.attr(DW_AT_artificial) else {
        return Ok(false);
    };
    if !is_this(source, entry) {
        return Ok(false);
    }
    goes_to_pointer(alloc, source, entry)
}

// Whether the parameter that was met last is the first.
fn is_first(context: &SubprogramContext) -> bool
    ensures { result ≡ is_first context.now }
{
    context.param_num == 0
}

// Whether a parameter is the object pointer of the function that tells of it: the one that the function names, or its first one if that
// looks like it.
fn is_object_pointer(
    alloc: Global,
    source: &CloneSource<'_, '_>,
    entry: &Entry<'_>,
    context: SubprogramContext,
) -> Result<bool, CloneError>
    ensures { (number : ℕ) (s : UnitSource) → IsSource source.now number s → IsEmitted source.now s (placed_entry source.now (entry_view entry.now)) → GivesOnly (points_by s.texts s.entries (placed_entry source.now (entry_view entry.now)) context) result }
{
    if context.obj_ptr == entry.offset {
        return Ok(true);
    }
    if !is_first(&context) {
        return Ok(false);
    }
    looks_like_this(alloc, source, entry)
}

// How the attributes of a parameter are told.
fn parameter_told(
    alloc: Global,
    source: &CloneSource<'_, '_>,
    entry: &Entry<'_>,
    contexts: &mut InheritedAttr<SubprogramContext>,
) -> Result<Telling, CloneError>
    ensures contexts { contexts.new ≡ met_at (pos (entry_view entry.now).depth -ℤ pos 1) contexts.old }
    ensures told { (number : ℕ) (s : UnitSource) → IsSource source.now number s → IsEmitted source.now s (placed_entry source.now (entry_view entry.now)) → GivesTelling (told_behind s.texts s.entries (placed_entry source.now (entry_view entry.now)) (top_at (pos (entry_view entry.now).depth -ℤ pos 1) contexts.old)) result }
{
    let Some(context) = context_at(contexts, entry) else {
        return Ok(Telling::Plain);
    };
    if is_object_pointer(alloc, source, entry, context)? {
        return Ok(Telling::ObjectPointer);
    }
    Ok(Telling::Plain)
}

/// How the attributes of an entry are told, the next in file order of those that are walked. `contexts` are what the functions among its
/// ancestors tell of their parameters, and then what it tells is added.
pub(crate) fn entry_told(
    alloc: Global,
    source: &CloneSource<'_, '_>,
    entry: &Entry<'_>,
    contexts: &mut InheritedAttr<SubprogramContext>,
) -> Result<Telling, CloneError>
    ensures contexts { OnOk result (contexts.new ≡ with_context source.now (entry_view entry.now) contexts.old) }
    ensures told { (number : ℕ) (s : UnitSource) (es others : List Entries.Entry) → IsSource source.now number s → AreEmitted source.now s number (es ++ entry_view entry.now ∷ others) → AreWalked s.entries (placed_in source.now.unit.now.header.offset (es ++ entry_view entry.now ∷ others)) → contexts.old ≡ contexts_behind source.now es → GivesTelling (telling_of s.texts s.entries (placed_entry source.now (entry_view entry.now))) result }
{
    contexts.update(entry.depth);
    if entry.tag == DW_TAG_formal_parameter {
        return parameter_told(alloc, source, entry, contexts);
    }
    if !has_parameters(entry.tag) {
        return Ok(Telling::Plain);
    }
    contexts.push(entry.depth, context_of(source, entry))?;
    Ok(Telling::Function)
}

// Whether an attribute names an entry of the unit as the object pointer.
fn names_pointer(source: &CloneSource<'_, '_>, name: u16, value: InputValue<'_>) -> bool
    ensures { result ≡ ((name == object_pointer) && names_within source.now (value_view value.entry)) }
{
    let unit = source.unit;
    if name != DW_AT_object_pointer {
        return false;
    }
    match named_offset(unit.offset(), unit.end(), value) {
        Some(offset) => unit.offset() <= u64::from(offset) && u64::from(offset) < unit.end(),
        None => false,
    }
}

// A text with two underscores in front, added to a table.
fn underscored(
    alloc: Global,
    text: &[u8],
    strings: &mut StringTable,
) -> Result<AttributeValue, CloneError>
    requires text { IsText text.now }
    ensures grows { Grows strings.old strings.new }
    ensures fits { IfOk result (λ v. (size name : ℕ) → FitsValue size name v) }
    ensures says { (places : List EmittedEntry) (number name : ℕ) → IfOk result (λ v. SaysMore places number name strings.old strings.new (Some (done (Trees.text (codes "__" ++ text.now)))) (Some v)) }
    ensures memory { IsOkUnless result CloneError.OutOfMemory }
{
    let mut name = Vec::from_slice(alloc, b"__")?;
    name.extend_from_slice(text)?;
    match strings.add(&name) {
        Ok(id) => Ok(AttributeValue::StringRef(id)),
        Err(_) => Err(CloneError::OutOfMemory),
    }
}

// What becomes of the name of an object pointer at an offset, which became something: a text is another one.
fn renamed(
    alloc: Global,
    source: &CloneSource<'_, '_>,
    offset: u64,
    value: InputValue<'_>,
    made: Option<AttributeValue>,
    strings: &mut StringTable,
) -> Result<Option<AttributeValue>, CloneError>
    requires read { IsReadValue name (value_view value) }
    requires fits { (size : ℕ) → IfSome made (FitsValue size name) }
    ensures fits { IfOk result (λ v. (size : ℕ) → IfSome v (FitsValue size name)) }
    ensures grows { Grows strings.old strings.new }
    ensures told { (registers : Registers) (number : ℕ) (s : UnitSource) (e : Placed) (before : List (ℕ × Value)) (draft : Option DraftValue) (texts : List (List ℕ)) → IsSource source.now number s → e.entry.offset ≡ offset → attribute_becomes (clone_rules registers source.now s) s e before (name, value_view value.entry) ≡ Ok draft → SaysMore source.now.places.now number name texts strings.old draft made → GivesMade (λ d v. SaysMore source.now.places.now number name texts strings.new (told_draft unlike_this name d) v) (attribute_becomes (clone_rules registers source.now s) s e before (name, value_view value.entry)) result }
{
    match text_of(source.unit, offset, value)? {
        Some(text) => Ok(Some(underscored(alloc, text, strings)?)),
        None => Ok(made),
    }
}

/// What an attribute of the entry at an offset becomes that became something, as it is told.
pub(crate) fn told_value(
    alloc: Global,
    source: &CloneSource<'_, '_>,
    telling: Telling,
    offset: u64,
    attribute: &(u16, InputValue<'_>),
    made: Option<AttributeValue>,
    strings: &mut StringTable,
) -> Result<Option<AttributeValue>, CloneError>
    requires read { IsReadValue attribute.now.0 (value_view attribute.now.1) }
    requires fits { (size : ℕ) → IfSome made (FitsValue size attribute.now.0) }
    ensures fits { IfOk result (λ v. (size : ℕ) → IfSome v (FitsValue size attribute.now.0)) }
    ensures grows { Grows strings.old strings.new }
    ensures told { (registers : Registers) (number : ℕ) (s : UnitSource) (e : Placed) (before : List (ℕ × Value)) (draft : Option DraftValue) (texts : List (List ℕ)) → IsSource source.now number s → e.unit ≡ source.now.unit.now.header.offset → e.entry.offset ≡ offset → attribute_becomes (clone_rules registers source.now s) s e before (attribute_view attribute.now) ≡ Ok draft → SaysMore source.now.places.now number attribute.now.0 texts strings.old draft made → GivesMade (λ d v. SaysMore source.now.places.now number attribute.now.0 texts strings.new (told_draft (tell_of telling s.entries e) attribute.now.0 d) v) (attribute_becomes (clone_rules registers source.now s) s e before (attribute_view attribute.now)) result }
{
    let (name, value) = *attribute;
    match telling {
        Telling::Plain => Ok(made),
        Telling::Function => {
            if names_pointer(source, name, value) {
                return Ok(None);
            }
            Ok(made)
        }
        Telling::ObjectPointer => {
            if name == DW_AT_artificial {
                return Ok(None);
            }
            if name == DW_AT_name {
                return renamed(alloc, source, offset, value, made, strings);
            }
            Ok(made)
        }
    }
}
