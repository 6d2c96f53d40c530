//! The types of the locals of the functions that a WebAssembly file defines. What cannot be read tells nothing, and no file is
//! refused for it. (WebAssembly 1.0, sections 5.3.3, 5.5.4, 5.5.6 and 5.5.13.)
ghost use Rattle.std.specs.Prelude.{◌≡◌, ℕ, ◌<◌, List, ◌∷◌, map, Some, IfOk, IfSome, slice_get};
ghost use Rattle.dwc_base.specs.Reading.{uleb_at, counted_at};
ghost use Rattle.dwc_base.specs.WasmVectors.{vector_at, readable_counted, readable_vector};
ghost use Rattle.dwc_base.specs.WasmFunctions.{value_types_at, parameter_types_at, body_at, local_group_at, local_groups, no_local_types, local_types_of, all_local_types};
ghost use Rattle.dwc_base.specs.TranslationNames.{param_types, local_types_view};
ghost use Rattle.dwc_base.specs.Cursors.{Gives, GivesOrMemory};
ghost use Rattle.dwc_wasm.specs.Vectors.{first_of_vector, IsNext};

use crate::fields::u32_number;
use dwc_base::{Cursor, Flaw, FunctionMeta, NotRead, ParamTypes, ValType};
use std::alloc::{AllocError, Global};

// The byte in front of a function type.
const FUNCTION_TYPE: u8 = 0x60;

// A vector that is read thing by thing: how many are left, and a cursor at the next. Behind the first that cannot be read
// none is left.
#[derive(Drop)]
struct Vector<'d> {
    left: u64,
    cursor: Cursor<'d>,
}

/// The types of the locals of the functions that a file defines, in order, by the contents of its type, function and code
/// sections. What cannot be read tells nothing. (WebAssembly 1.0, sections 5.3.3, 5.5.4, 5.5.6 and 5.5.13.)
#[tactic(auto, using(crate::proofs::VectorLaws::readable_first))]
pub(crate) fn function_types<'d>(
    alloc: Global,
    types: Cursor<'d>,
    functions: Cursor<'d>,
    code: Cursor<'d>,
) -> Result<Vec<FunctionMeta<'d>>, AllocError>
    ensures { IfOk result (λ funcs. map local_types_view funcs.items ≡ all_local_types (readable_vector parameter_types_at types.entry) (readable_vector uleb_at functions.entry) (readable_vector body_at code.entry)) }
{
    let types = some_parameter_types(alloc, types)?;
    let mut numbers = vector_of(functions);
    let mut bodies = vector_of(code);
    all_functions(alloc, &types, &mut numbers, &mut bodies)
}

// The functions of the type numbers that can be read, each with the next body.
fn all_functions<'d>(
    alloc: Global,
    types: &[ParamTypes<'d>],
    numbers: &mut Vector<'_>,
    bodies: &mut Vector<'_>,
) -> Result<Vec<FunctionMeta<'d>>, AllocError>
    ensures { IfOk result (λ funcs. map local_types_view funcs.items ≡ all_local_types (map param_types types.now) (readable_counted numbers.old.left uleb_at numbers.old.cursor) (readable_counted bodies.old.left body_at bodies.old.cursor)) }
{
    let mut functions = Vec::new(alloc);
    while let Some(number) = next_number(numbers) {
        let function = next_function(alloc, types, number, bodies)?;
        functions.push(function)?;
    }
    Ok(functions)
}

// A function of a type, with the next body.
fn next_function<'d>(
    alloc: Global,
    types: &[ParamTypes<'d>],
    number: u64,
    bodies: &mut Vector<'_>,
) -> Result<FunctionMeta<'d>, AllocError>
    ensures { IfOk result (λ f. (ns : List ℕ) → all_local_types (map param_types types.now) (number ∷ ns) (readable_counted bodies.old.left body_at bodies.old.cursor) ≡ local_types_view f ∷ all_local_types (map param_types types.now) ns (readable_counted bodies.new.left body_at bodies.new.cursor)) }
{
    match next_body(bodies) {
        Some(body) => function_of(alloc, types, number, body),
        None => Ok(unknown_function(alloc)),
    }
}

// A function by the number of its type and its body.
fn function_of<'d>(
    alloc: Global,
    types: &[ParamTypes<'d>],
    number: u64,
    body: Cursor<'_>,
) -> Result<FunctionMeta<'d>, AllocError>
    ensures { IfOk result (λ f. local_types_view f ≡ local_types_of (slice_get (map param_types types.now) number) (local_groups body.entry)) }
{
    match types.get(number as usize) {
        Some(params) => function_with(alloc, *params, body),
        None => Ok(unknown_function(alloc)),
    }
}

// A function by the types of its parameters and its body.
#[tactic(auto, unfolding(dwc_base::specs::WasmFunctions::local_groups))]
fn function_with<'d>(
    alloc: Global,
    params: ParamTypes<'d>,
    mut body: Cursor<'_>,
) -> Result<FunctionMeta<'d>, AllocError>
    ensures { IfOk result (λ f. local_types_view f ≡ local_types_of (Some (param_types params.entry)) (local_groups body.entry)) }
{
    match groups_of_locals(alloc, &mut body) {
        Ok(locals) => Ok(FunctionMeta { params, locals }),
        Err(NotRead::OutOfMemory) => Err(AllocError),
        Err(NotRead::Flawed(_)) => Ok(unknown_function(alloc)),
    }
}

// A function of which nothing is told.
fn unknown_function<'d>(alloc: Global) -> FunctionMeta<'d>
    ensures { local_types_view result ≡ no_local_types }
{
    FunctionMeta {
        params: ParamTypes::new(&[]),
        locals: Vec::new(alloc),
    }
}

// The parameters of the types that can be read.
#[tactic(auto, using(crate::proofs::VectorLaws::readable_first))]
fn some_parameter_types<'d>(
    alloc: Global,
    cursor: Cursor<'d>,
) -> Result<Vec<ParamTypes<'d>>, AllocError>
    ensures { IfOk result (λ lent. map param_types lent.items ≡ readable_vector parameter_types_at cursor.entry) }
{
    let mut types = vector_of(cursor);
    let mut lent = Vec::new(alloc);
    while let Some(parameters) = next_type(&mut types) {
        lent.push(parameters)?;
    }
    Ok(lent)
}

// The vector at the front of some bytes; an empty one where its count cannot be read.
fn vector_of<'d>(mut cursor: Cursor<'d>) -> Vector<'d>
    ensures { (result.left, result.cursor) ≡ first_of_vector cursor.entry }
{
    match cursor.uleb() {
        Ok(left) => Vector { left, cursor },
        Err(_) => Vector { left: 0, cursor },
    }
}

// The parameters of the next type.
#[tactic(auto, using(crate::proofs::VectorLaws::readable_next, crate::proofs::VectorLaws::readable_stop, crate::proofs::VectorLaws::readable_none))]
fn next_type<'d>(types: &mut Vector<'d>) -> Option<ParamTypes<'d>>
    ensures next { IsNext param_types (readable_counted types.old.left parameter_types_at types.old.cursor) (readable_counted types.new.left parameter_types_at types.new.cursor) result }
    ensures fewer { IfSome result (λ _. types.new.left < types.old.left) }
{
    if types.left == 0 {
        return None;
    }
    match parameter_types(&mut types.cursor) {
        Ok(parameters) => {
            types.left -= 1;
            Some(parameters)
        }
        Err(_) => {
            types.left = 0;
            None
        }
    }
}

// The next type number.
#[tactic(auto, using(crate::proofs::VectorLaws::readable_next, crate::proofs::VectorLaws::readable_stop, crate::proofs::VectorLaws::readable_none))]
fn next_number(numbers: &mut Vector<'_>) -> Option<u64>
    ensures next { IsNext (λ n. n) (readable_counted numbers.old.left uleb_at numbers.old.cursor) (readable_counted numbers.new.left uleb_at numbers.new.cursor) result }
    ensures fewer { IfSome result (λ _. numbers.new.left < numbers.old.left) }
{
    if numbers.left == 0 {
        return None;
    }
    match numbers.cursor.uleb() {
        Ok(number) => {
            numbers.left -= 1;
            Some(number)
        }
        Err(_) => {
            numbers.left = 0;
            None
        }
    }
}

// The next body.
#[tactic(auto, using(crate::proofs::VectorLaws::readable_next, crate::proofs::VectorLaws::readable_stop, crate::proofs::VectorLaws::readable_none))]
fn next_body<'d>(bodies: &mut Vector<'d>) -> Option<Cursor<'d>>
    ensures { IsNext (λ b. b) (readable_counted bodies.old.left body_at bodies.old.cursor) (readable_counted bodies.new.left body_at bodies.new.cursor) result }
{
    if bodies.left == 0 {
        return None;
    }
    match body(&mut bodies.cursor) {
        Ok(body) => {
            bodies.left -= 1;
            Some(body)
        }
        Err(_) => {
            bodies.left = 0;
            None
        }
    }
}

// A function type: the types of its parameters. Those of its results are passed.
#[tactic(auto, unfolding(dwc_base::specs::WasmFunctions::parameter_types_at, dwc_base::specs::Wasm::byte_at))]
fn parameter_types<'d>(cursor: &mut Cursor<'d>) -> Result<ParamTypes<'d>, Flaw>
    ensures { Gives param_types (parameter_types_at cursor.old) cursor.new result }
{
    let form = cursor.u8()?;
    if form != FUNCTION_TYPE {
        return Err(Flaw::Malformed);
    }
    let parameters = value_types(cursor)?;
    value_types(cursor)?;
    Ok(parameters)
}

// A vector of value types.
#[tactic(auto, unfolding(dwc_base::specs::WasmFunctions::value_types_at))]
fn value_types<'d>(cursor: &mut Cursor<'d>) -> Result<ParamTypes<'d>, Flaw>
    ensures { Gives param_types (value_types_at cursor.old) cursor.new result }
{
    let size = cursor.uleb()?;
    let bytes = cursor.take(size as usize)?;
    Ok(ParamTypes::new(bytes))
}

// A body: its size, and as many bytes.
#[tactic(auto, unfolding(dwc_base::specs::WasmFunctions::body_at))]
fn body<'d>(cursor: &mut Cursor<'d>) -> Result<Cursor<'d>, Flaw>
    ensures { Gives (λ b. b) (body_at cursor.old) cursor.new result }
{
    let size = cursor.uleb()?;
    Ok(cursor.part(size as usize)?)
}

// The groups of locals at the front of a body.
#[tactic(auto, unfolding(dwc_base::specs::WasmVectors::vector_at))]
fn groups_of_locals(alloc: Global, body: &mut Cursor<'_>) -> Result<Vec<(u32, ValType)>, NotRead>
    ensures { GivesOrMemory (λ groups. groups.items) (vector_at local_group_at body.old) body.new result }
{
    let count = body.uleb()?;
    Ok(some_groups(alloc, count, body)?)
}

// So many groups of locals.
fn some_groups(
    alloc: Global,
    count: u64,
    body: &mut Cursor<'_>,
) -> Result<Vec<(u32, ValType)>, NotRead>
    ensures { GivesOrMemory (λ groups. groups.items) (counted_at count local_group_at body.old) body.new result }
{
    let mut groups = Vec::new(alloc);
    for _ in 0..count {
        let group = local_group(body)?;
        groups.push(group)?;
    }
    Ok(groups)
}

// Locals of one type: how many, and the type.
#[tactic(auto, unfolding(dwc_base::specs::WasmFunctions::local_group_at))]
fn local_group(cursor: &mut Cursor<'_>) -> Result<(u32, ValType), Flaw>
    ensures { Gives (λ group. group) (local_group_at cursor.old) cursor.new result }
{
    let count = u32_number(cursor)?;
    let byte = cursor.u8()?;
    Ok((count, ValType::of_byte(byte)))
}
