//! JSON values by the tokens of a text.
ghost use Rattle.std.specs.Prelude.{◌≡◌, ◌<◌, ◌^◌, ◌==◌, true, false, length, slice_index, Some, IfOk, IfSome, IsTrue, OnOk};
ghost use Rattle.std.specs.Str.Parse.{digits_value, IsNumeral};
ghost use Rattle.json.specs.Json.{value, items, members};
ghost use Rattle.serde_json.specs.Data.{no_members, put, unsigned};
ghost use Rattle.serde_json.specs.Find.{of_integer};
ghost use Rattle.serde_json.specs.Read.{of_json, of_items, of_members, converted, number_from, number_of};
ghost use Rattle.serde_json.specs.View.{view, items_view, members_view, number_view};

use crate::stop::Stop;
use fast_float::Numeral;
use json::{Reader, Token};
use serde_json::{Map, Number, Value};
use std::alloc::Global;

fn has_minus(bytes: &[u8]) -> bool
    ensures value { result ≡ (slice_index bytes.now 0 == 45) }
    ensures some { IsTrue result → 0 < length bytes.now }
{
    !bytes.is_empty() && bytes[0] == b'-'
}

// The number that a numeral without a sign writes, if it is whole and has 64 bits.
fn unsigned_of(numeral: &Numeral<'_>) -> Option<u64>
    ensures { IfSome result (λ n. number_from false numeral.now ≡ Some (unsigned n)) }
{
    numeral.to_u64()
}

// The number below 0 that a numeral behind a sign writes, if it is whole and has 64 bits.
fn below_zero_of(numeral: &Numeral<'_>) -> Option<i64>
    ensures { IfSome result (λ n. number_from true numeral.now ≡ Some (of_integer n)) }
{
    let number = numeral.to_i64(true)?;
    if number < 0 { Some(number) } else { None }
}

// How many digits a number of 64 bits has whatever they are.
const MOST_DIGITS: usize = 19;

// The number of some digits, of which there are 19 at most; none where another byte stands among them.
fn digits_number(digits: &[u8]) -> Option<u64>
    ensures { IfSome result (λ n. IsNumeral 10 digits.now × (n ≡ digits_value 10 digits.now) × (n < 2 ^ 64)) }
{
    if digits.is_empty() || digits.len() > MOST_DIGITS {
        return None;
    }
    let mut number = 0;
    for byte in digits {
        if *byte < b'0' || *byte > b'9' {
            return None;
        }
        number = number * 10 + (u64::from(*byte) - 48);
    }
    Some(number)
}

// The whole number that any numeral writes in digits, if it has 64 bits.
#[cold]
fn whole_of_numeral(bytes: &[u8]) -> Option<u64>
    ensures { IfSome result (λ n. number_of bytes.now ≡ Some (unsigned n)) }
{
    if has_minus(bytes) {
        return None;
    }
    unsigned_of(&Numeral::scan(bytes))
}

/// The whole number that a text writes in digits, if it has 64 bits.
pub(crate) fn whole_of(text: &str) -> Option<u64>
    ensures { IfSome result (λ n. number_of text.now ≡ Some (unsigned n)) }
{
    let bytes = text.as_bytes();
    match digits_number(bytes) {
        Some(number) => Some(number),
        None => whole_of_numeral(bytes),
    }
}

// The whole number below 0 that a text writes in digits behind a sign, if it has 64 bits.
fn negative_of(text: &str) -> Option<i64>
    ensures { IfSome result (λ n. number_of text.now ≡ Some (of_integer n)) }
{
    let bytes = text.as_bytes();
    if !has_minus(bytes) {
        return None;
    }
    below_zero_of(&Numeral::scan(&bytes[1..]))
}

/// The whole number that a text writes, if it has 64 bits.
pub(crate) fn number_of(text: &str) -> Option<Number>
    ensures { IfSome result (λ n. number_of text.now ≡ Some (number_view n)) }
{
    match whole_of(text) {
        Some(number) => Some(Number::from(number)),
        None => Some(Number::from(negative_of(text)?)),
    }
}

/// Puts a value among members at a name, in place of what stood there.
pub(crate) fn put_value(
    alloc: Global,
    members: &mut Map<String, Value>,
    name: &str,
    value: Value,
) -> Result<(), Stop>
    ensures { OnOk result (members_view members.new.entries ≡ put name.now (view value) (members_view members.old.entries)) }
{
    let name = String::from_str(alloc, name)?;
    drop(members.insert(name, value)?);
    Ok(())
}

/// The next value, nested no deeper than `depth`; its numbers are whole.
#[cycle(read)]
pub(crate) fn read_value(
    alloc: Global,
    reader: &mut Reader<'_>,
    depth: usize,
) -> Result<Value, Stop>
    ensures value { IfOk result (λ v. converted of_json (value depth reader.old) ≡ Some (view v, reader.new)) }
    ensures shorter { OnOk result (length reader.new < length reader.old) }
{
    let Some(token) = reader.next() else {
        return Err(Stop::Unusual);
    };
    match token {
        Token::String(text) => Ok(Value::String(String::from_str(alloc, text)?)),
        Token::Number(text) => match number_of(text) {
            Some(number) => Ok(Value::Number(number)),
            None => Err(Stop::Unusual),
        },
        Token::Bool(truth) => Ok(Value::Bool(truth)),
        Token::Null => Ok(Value::Null),
        Token::BeginArray if depth > 0 => Ok(Value::Array(read_items(alloc, reader, depth - 1)?)),
        Token::BeginObject if depth > 0 => {
            Ok(Value::Object(read_members(alloc, reader, depth - 1)?))
        }
        _ => Err(Stop::Unusual),
    }
}

// The items of a list, behind its bracket.
#[cycle(read)]
fn read_items(alloc: Global, reader: &mut Reader<'_>, depth: usize) -> Result<Vec<Value>, Stop>
    ensures value { IfOk result (λ v. converted of_items (items (value depth) (length reader.old) reader.old) ≡ Some (items_view v.items, reader.new)) }
    ensures shorter { OnOk result (length reader.new < length reader.old) }
{
    let mut found = Vec::new(alloc);
    'items: while !reader.take_end_array() {
        let item = read_value(alloc, reader, depth)?;
        found.push(item)?;
    }
    Ok(found)
}

// The members of an object, behind its brace.
#[cycle(read)]
fn read_members(
    alloc: Global,
    reader: &mut Reader<'_>,
    depth: usize,
) -> Result<Map<String, Value>, Stop>
    ensures value { IfOk result (λ m. converted (λ ms. of_members ms no_members) (members (value depth) (length reader.old) reader.old) ≡ Some (members_view m.entries, reader.new)) }
    ensures shorter { OnOk result (length reader.new < length reader.old) }
{
    let mut found = Map::new(alloc);
    'members: while let Some(name) = reader.next_key()? {
        let member = read_value(alloc, reader, depth)?;
        put_value(alloc, &mut found, name, member)?;
    }
    Ok(found)
}
