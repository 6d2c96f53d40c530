//! The names that a WebAssembly file tells in its custom section `name`. (WebAssembly 1.0, section 7.4.1.)
ghost use Rattle.std.specs.Prelude.{◌≡◌, map, IfOk, option_map};
ghost use Rattle.std.specs.List.{flat_map};
ghost use Rattle.std.specs.Ordering.{nat_cmp};
ghost use Rattle.dwc_base.specs.Cursors.{Gives, GivesOrMemory};
ghost use Rattle.dwc_base.specs.Reading.{seen_as, counted_at};
ghost use Rattle.dwc_base.specs.SortedEntries.{sorted_entries, pair_cmp};
ghost use Rattle.dwc_base.specs.Wasm.{name_at, last_of};
ghost use Rattle.dwc_base.specs.WasmNames.{name_subsection_at, next_name_subsection, name_association_at, name_map_at, local_name_map_at, said_by, said_in};
ghost use Rattle.dwc_base.specs.WasmVectors.{vector_at};
ghost use Rattle.dwc_wasm.specs.NamesRead.{TellsNamesIn, MeetsNext, things_of, subsection_view, keyed_by_function, keyed_by_local};
ghost use Rattle.dwc_base.specs.TranslationNames.{function_name_view, local_name_view};

use crate::fields::{name, u32_number};
use dwc_base::{Cursor, Endian, Flaw, NotRead};
use std::alloc::{AllocError, Global};
use std::collections::BTreeMap;

// The ids of the subsections that are read.
const MODULE_NAME: u8 = 0;

const FUNCTION_NAMES: u8 = 1;

const LOCAL_NAMES: u8 = 2;

/// The names that a file tells.
#[derive(Drop)]
pub(crate) struct Names<'d> {
    /// The name of the module.
    pub module: Option<&'d str>,
    /// The names of functions by number, in rising order.
    pub functions: Vec<(u32, &'d str)>,
    /// The names of locals by the numbers of the function and the local, in rising order.
    pub locals: Vec<(u32, u32, &'d str)>,
}

/// The names in the contents of a custom section `name`. What cannot be read tells nothing, and of two names of one thing
/// the later counts. (WebAssembly 1.0, section 7.4.1.)
pub(crate) fn names_in<'d>(alloc: Global, bytes: &'d [u8]) -> Result<Names<'d>, AllocError>
    ensures { IfOk result (λ n. TellsNamesIn n bytes.now) }
{
    let module = module_name(bytes);
    let said = functions_said(alloc, bytes)?;
    let functions = functions_in_order(alloc, &said)?;
    let said = locals_said(alloc, bytes)?;
    let locals = locals_in_order(alloc, &said)?;
    Ok(Names {
        module,
        functions,
        locals,
    })
}

// The name of the module: the last that is said.
fn module_name<'d>(bytes: &'d [u8]) -> Option<&'d str>
    ensures { option_map (λ t. t.now) result ≡ last_of (said_in 0 name_at bytes.now) }
{
    let mut cursor = Cursor::new(bytes, Endian::Little);
    let mut found = None;
    while let Some(subsection) = next_subsection(&mut cursor) {
        found = told_module(subsection).or(found);
    }
    found
}

// The names of functions, as they are said.
fn functions_said<'d>(alloc: Global, bytes: &'d [u8]) -> Result<Vec<(u32, &'d str)>, AllocError>
    ensures { IfOk result (λ v. map function_name_view v.items ≡ flat_map (λ names. names) (said_in 1 name_map_at bytes.now)) }
{
    let mut cursor = Cursor::new(bytes, Endian::Little);
    let mut said = Vec::new(alloc);
    while let Some(subsection) = next_subsection(&mut cursor) {
        let more = told_functions(alloc, subsection)?;
        said.extend_from_slice(&more)?;
    }
    Ok(said)
}

// The names of functions in order.
#[tactic(auto, using(crate::proofs::NameOrder::functions_in_order))]
fn functions_in_order<'d>(
    alloc: Global,
    said: &[(u32, &'d str)],
) -> Result<Vec<(u32, &'d str)>, AllocError>
    ensures { IfOk result (λ v. map function_name_view v.items ≡ sorted_entries nat_cmp (map function_name_view said.now)) }
{
    let names = by_function(alloc, said)?;
    Ok(named_functions(alloc, names)?)
}

// The names of functions by their numbers: of two of one function the later.
fn by_function<'d>(
    alloc: Global,
    said: &[(u32, &'d str)],
) -> Result<BTreeMap<u32, &'d str>, AllocError>
    ensures { IfOk result (λ m. m.entries ≡ sorted_entries nat_cmp (map keyed_by_function said.now)) }
{
    let mut names = BTreeMap::new(alloc);
    for (number, name) in said {
        names.insert(*number, *name)?;
    }
    Ok(names)
}

// The entries of a map in order.
fn named_functions<'d>(
    alloc: Global,
    names: BTreeMap<u32, &'d str>,
) -> Result<Vec<(u32, &'d str)>, AllocError>
    ensures { IfOk result (λ v. v.items ≡ names.entry.entries) }
{
    names.into_iter().collect(alloc)
}

// The names of locals, as they are said.
fn locals_said<'d>(alloc: Global, bytes: &'d [u8]) -> Result<Vec<(u32, u32, &'d str)>, AllocError>
    ensures { IfOk result (λ v. map local_name_view v.items ≡ flat_map (λ maps. flat_map (λ names. names) maps) (said_in 2 (vector_at local_name_map_at) bytes.now)) }
{
    let mut cursor = Cursor::new(bytes, Endian::Little);
    let mut said = Vec::new(alloc);
    while let Some(subsection) = next_subsection(&mut cursor) {
        let more = told_locals(alloc, subsection)?;
        said.extend_from_slice(&more)?;
    }
    Ok(said)
}

// The names of locals in order.
#[tactic(auto, using(crate::proofs::NameOrder::locals_in_order))]
fn locals_in_order<'d>(
    alloc: Global,
    said: &[(u32, u32, &'d str)],
) -> Result<Vec<(u32, u32, &'d str)>, AllocError>
    ensures { IfOk result (λ v. map local_name_view v.items ≡ sorted_entries pair_cmp (map local_name_view said.now)) }
{
    let names = by_local(alloc, said)?;
    Ok(named_locals(alloc, names)?)
}

// The names of locals by both numbers: of two of one local the later.
fn by_local<'d>(
    alloc: Global,
    said: &[(u32, u32, &'d str)],
) -> Result<BTreeMap<(u32, u32), &'d str>, AllocError>
    ensures { IfOk result (λ m. m.entries ≡ sorted_entries pair_cmp (map keyed_by_local said.now)) }
{
    let mut names = BTreeMap::new(alloc);
    for (function, number, name) in said {
        names.insert((*function, *number), *name)?;
    }
    Ok(names)
}

// The entries of a map of locals in order.
fn named_locals<'d>(
    alloc: Global,
    names: BTreeMap<(u32, u32), &'d str>,
) -> Result<Vec<(u32, u32, &'d str)>, AllocError>
    ensures { IfOk result (λ v. map keyed_by_local v.items ≡ names.entry.entries) }
{
    let mut named = Vec::new(alloc);
    for ((function, number), name) in names {
        named.push((function, number, name))?;
    }
    Ok(named)
}

// A subsection: its id, and its bytes.
#[derive(Drop)]
struct NameSubsection<'d> {
    id: u8,
    content: Cursor<'d>,
}

// The next subsection; None at the end, and where it cannot be read.
#[tactic(auto, unfolding(dwc_base::specs::WasmNames::next_name_subsection))]
fn next_subsection<'d>(cursor: &mut Cursor<'d>) -> Option<NameSubsection<'d>>
    ensures { MeetsNext (next_name_subsection cursor.old) cursor.new result }
{
    if cursor.left() == 0 {
        return None;
    }
    match name_subsection(cursor) {
        Ok(subsection) => Some(subsection),
        Err(_) => None,
    }
}

// The subsection at the front.
#[tactic(auto, unfolding(dwc_base::specs::WasmNames::name_subsection_at))]
fn name_subsection<'d>(cursor: &mut Cursor<'d>) -> Result<NameSubsection<'d>, Flaw>
    ensures { Gives subsection_view (name_subsection_at cursor.old) cursor.new result }
{
    let id = cursor.u8()?;
    let size = cursor.uleb()?;
    let content = cursor.part(size as usize)?;
    Ok(NameSubsection { id, content })
}

// The name of the module that a subsection tells.
fn told_module<'d>(subsection: NameSubsection<'d>) -> Option<&'d str>
    ensures { option_map (λ t. t.now) result ≡ said_by 0 name_at (subsection_view subsection.entry) }
{
    let NameSubsection { id, mut content } = subsection;
    if id != MODULE_NAME {
        return None;
    }
    match name(&mut content) {
        Ok(name) => {
            if content.left() == 0 {
                Some(name)
            } else {
                None
            }
        }
        Err(_) => None,
    }
}

// The names of functions that a subsection tells.
fn told_functions<'d>(
    alloc: Global,
    subsection: NameSubsection<'d>,
) -> Result<Vec<(u32, &'d str)>, AllocError>
    ensures { IfOk result (λ v. map function_name_view v.items ≡ things_of (λ names. names) (said_by 1 name_map_at (subsection_view subsection.entry))) }
{
    let NameSubsection { id, mut content } = subsection;
    if id != FUNCTION_NAMES {
        return Ok(Vec::new(alloc));
    }
    match name_map(alloc, &mut content) {
        Ok(names) => {
            if content.left() == 0 {
                Ok(names)
            } else {
                Ok(Vec::new(alloc))
            }
        }
        Err(NotRead::OutOfMemory) => Err(AllocError),
        Err(NotRead::Flawed(_)) => Ok(Vec::new(alloc)),
    }
}

// The names of locals that a subsection tells.
fn told_locals<'d>(
    alloc: Global,
    subsection: NameSubsection<'d>,
) -> Result<Vec<(u32, u32, &'d str)>, AllocError>
    ensures { IfOk result (λ v. map local_name_view v.items ≡ things_of (flat_map (λ names. names)) (said_by 2 (vector_at local_name_map_at) (subsection_view subsection.entry))) }
{
    let NameSubsection { id, mut content } = subsection;
    if id != LOCAL_NAMES {
        return Ok(Vec::new(alloc));
    }
    match local_name_maps(alloc, &mut content) {
        Ok(names) => {
            if content.left() == 0 {
                Ok(names)
            } else {
                Ok(Vec::new(alloc))
            }
        }
        Err(NotRead::OutOfMemory) => Err(AllocError),
        Err(NotRead::Flawed(_)) => Ok(Vec::new(alloc)),
    }
}

// Names by numbers.
#[tactic(auto, unfolding(dwc_base::specs::WasmNames::name_map_at, dwc_base::specs::WasmVectors::vector_at))]
fn name_map<'d>(alloc: Global, cursor: &mut Cursor<'d>) -> Result<Vec<(u32, &'d str)>, NotRead>
    ensures { GivesOrMemory (λ v. map function_name_view v.items) (name_map_at cursor.old) cursor.new result }
{
    let count = cursor.uleb()?;
    Ok(some_names(alloc, count, cursor)?)
}

// So many numbers and names.
fn some_names<'d>(
    alloc: Global,
    count: u64,
    cursor: &mut Cursor<'d>,
) -> Result<Vec<(u32, &'d str)>, NotRead>
    ensures { GivesOrMemory (λ v. map function_name_view v.items) (counted_at count name_association_at cursor.old) cursor.new result }
{
    let mut names = Vec::new(alloc);
    for _ in 0..count {
        let association = name_association(cursor)?;
        names.push(association)?;
    }
    Ok(names)
}

// A number and a name.
#[tactic(auto, unfolding(dwc_base::specs::WasmNames::name_association_at))]
fn name_association<'d>(cursor: &mut Cursor<'d>) -> Result<(u32, &'d str), Flaw>
    ensures { Gives function_name_view (name_association_at cursor.old) cursor.new result }
{
    let number = u32_number(cursor)?;
    let name = name(cursor)?;
    Ok((number, name))
}

// The names of the locals of functions, in one list.
#[tactic(auto, unfolding(dwc_base::specs::WasmVectors::vector_at))]
fn local_name_maps<'d>(
    alloc: Global,
    cursor: &mut Cursor<'d>,
) -> Result<Vec<(u32, u32, &'d str)>, NotRead>
    ensures { GivesOrMemory (λ v. map local_name_view v.items) (seen_as (flat_map (λ names. names)) (vector_at local_name_map_at cursor.old)) cursor.new result }
{
    let count = cursor.uleb()?;
    Ok(some_local_names(alloc, count, cursor)?)
}

// So many names of locals by their function, in one list.
fn some_local_names<'d>(
    alloc: Global,
    count: u64,
    cursor: &mut Cursor<'d>,
) -> Result<Vec<(u32, u32, &'d str)>, NotRead>
    ensures { GivesOrMemory (λ v. map local_name_view v.items) (seen_as (flat_map (λ names. names)) (counted_at count local_name_map_at cursor.old)) cursor.new result }
{
    let mut names = Vec::new(alloc);
    for _ in 0..count {
        let more = local_name_map(alloc, cursor)?;
        names.extend_from_slice(&more)?;
    }
    Ok(names)
}

// A function's number, and the names of its locals by theirs.
#[tactic(auto, unfolding(dwc_base::specs::WasmNames::local_name_map_at))]
fn local_name_map<'d>(
    alloc: Global,
    cursor: &mut Cursor<'d>,
) -> Result<Vec<(u32, u32, &'d str)>, NotRead>
    ensures { GivesOrMemory (λ v. map local_name_view v.items) (local_name_map_at cursor.old) cursor.new result }
{
    let function = u32_number(cursor)?;
    let names = name_map(alloc, cursor)?;
    Ok(names_of_function(alloc, function, &names)?)
}

// The names of a function's locals, by both numbers.
fn names_of_function<'d>(
    alloc: Global,
    function: u32,
    names: &[(u32, &'d str)],
) -> Result<Vec<(u32, u32, &'d str)>, AllocError>
    ensures { IfOk result (λ v. map local_name_view v.items ≡ map (λ n. ((function, n.0), n.1)) (map function_name_view names.now)) }
{
    let mut of_both = Vec::new(alloc);
    for (number, name) in names {
        of_both.push((function, *number, *name))?;
    }
    Ok(of_both)
}
